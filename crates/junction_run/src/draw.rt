// The frames of a sample, drawn from a seed.
ghost use Rattle.std.specs.Prelude.{◌≡◌, ◌<◌, ◌≤◌, ◌==◌, ◌%◌, All, take};
ghost use Rattle.rand_pcg.specs.Pcg.{pcg32};
ghost use Rattle.junction_run.specs.Drawn.{after_frame, frame_from, generator_of, places_from};

use rand_core::utils::NextWord;
use rand_pcg::Lcg64Xsh32;
use sig_types::Frame;

const DRAWN: u8 = 12;

/// The generator of a seed.
#[tactic(auto, unfolding(crate::specs::Drawn::generator_of))]
pub(crate) fn generator_of(seed: u64) -> Lcg64Xsh32
    ensures { result ≡ generator_of seed }
{
    Lcg64Xsh32::new(seed, 1)
}

// Whether the next word tells of a vehicle, as one word in eight does: one front and one rear.
fn draw_vehicle(generator: &mut Lcg64Xsh32) -> bool
    ensures vehicle { result ≡ ((pcg32 generator.old).0 % 8 == 0) }
    ensures next { generator.new ≡ (pcg32 generator.old).1 }
{
    let word: u32 = generator.next_word();
    word % 8 == 0
}

// Draws a word for each of detectors 1 to 12: the places whose words tell of a vehicle, and how many they are. Which words
// do can't be foreseen, so no branch asks it.
fn draw_places(generator: &mut Lcg64Xsh32) -> ([u8; 12], usize)
    ensures places { take result.1 result.0 ≡ places_from generator.old }
    ensures few { result.1 ≤ 12 }
    ensures inside { All (λ place. place < 12) result.0 }
    ensures next { generator.new ≡ after_frame generator.old }
{
    let mut places = [0; 12];
    let mut count = 0;
    for place in 0..DRAWN {
        places[count] = place;
        if draw_vehicle(generator) {
            count += 1;
        }
    }
    (places, count)
}

/// Draws the frame of the next second. A word is drawn for each of detectors 1 to 12, whether or not anything comes of it.
pub(crate) fn draw_frame(generator: &mut Lcg64Xsh32, frame: &mut Frame)
    ensures frame { frame.new ≡ frame_from generator.old }
    ensures next { generator.new ≡ after_frame generator.old }
{
    let (places, count) = draw_places(generator);
    frame.clear();
    for i in 0..count {
        frame.set(places[i], (1, 1));
    }
}
