// The legend of a diagram.
ghost use Rattle.std.specs.Prelude.{◌+◌, ◌*◌, ◌^◌, ◌<◌, ◌≤◌, ◌++◌, ℕ, List, Option, codes, length};
ghost use Rattle.sig_io.specs.Draft.{Puts};
ghost use Rattle.log_svg.specs.Svg.{box_text, label_text};
ghost use Rattle.log_svg.specs.Diagram.{aspects_key, commands_key, cover_key, fault_key, fronts_key, key_text, least_key, least_style, legend_text, rule_key, rules_key, told_key, turns_key};

use crate::marks::rule_letter;
use crate::pieces::{begin_cross, begin_label, put_box, put_label, put_upright};
use sig_io::{Draft, Sink};
use sig_types::Rule;

// Puts a bar with what it stands for.
fn put_key<O: Sink>(draft: &mut Draft, sink: &mut O, class: &[u8], x: u32, y: u32, word: &[u8])
    requires class { length class.now ≤ 4096 }
    requires x { x ≤ 10000 }
    requires word { length word.now ≤ 4096 }
    requires y { y ≤ 200000 }
    ensures { Puts O.taken O.faults draft.old draft.new sink.old sink.new (key_text class.now x y word.now) }
{
    put_box(draft, sink, class, (x, y), 24, 12);
    put_label(draft, sink, b"o", x + 30, y + 10, word);
}

// Puts the line of red with its word.
fn put_red_key<O: Sink>(draft: &mut Draft, sink: &mut O, y: u32)
    requires { y ≤ 200000 }
    ensures { Puts O.taken O.faults draft.old draft.new sink.old sink.new
        ((box_text (codes "r") 12 (y + 5) 24 2 ++ label_text (codes "o") 42 (y + 10) (codes "red"))) }
{
    put_box(draft, sink, b"r", (12, y + 5), 24, 2);
    put_label(draft, sink, b"o", 42, y + 10, b"red");
}

// Puts the bars of the aspects with their words.
fn put_aspects_key<O: Sink>(draft: &mut Draft, sink: &mut O, y: u32)
    requires { y ≤ 200000 }
    ensures { Puts O.taken O.faults draft.old draft.new sink.old sink.new (aspects_key y) }
{
    put_red_key(draft, sink, y);
    put_key(draft, sink, b"u", 82, y, b"red-amber");
    put_key(draft, sink, b"g", 196, y, b"green, seconds");
    put_label(draft, sink, b"k", 208, y + 10, b"12");
    put_key(draft, sink, b"a", 346, y, b"amber");
}

// Puts the cross of a fault with its word.
fn put_fault_key<O: Sink>(draft: &mut Draft, sink: &mut O, y: u32)
    requires { y ≤ 200000 }
    ensures { Puts O.taken O.faults draft.old draft.new sink.old sink.new (fault_key y) }
{
    begin_cross(draft, sink, 562, y + 2);
    draft.put(sink, b"/>\n");
    put_label(draft, sink, b"o", 576, y + 10, b"fault");
}

// Puts a rule with its letter.
fn put_rule_key<O: Sink>(draft: &mut Draft, sink: &mut O, x: u32, y: u32, rule: Rule, word: &[u8])
    requires x { x ≤ 10000 }
    requires y { y ≤ 200000 }
    requires word { length word.now ≤ 4096 }
    ensures { Puts O.taken O.faults draft.old draft.new sink.old sink.new (rule_key x y rule word.now) }
{
    begin_label(draft, sink, b"x", x, y + 10);
    draft.put(sink, &[rule_letter(rule)]);
    draft.put(sink, b"</text>\n");
    put_label(draft, sink, b"o", x + 8, y + 10, word);
}

// Puts the rules of turns.
fn put_turns_key<O: Sink>(draft: &mut Draft, sink: &mut O, y: u32)
    requires { y ≤ 200000 }
    ensures { Puts O.taken O.faults draft.old draft.new sink.old sink.new (turns_key y) }
{
    put_rule_key(draft, sink, 88, y, Rule::MinGreen, b"minimum green");
    put_rule_key(draft, sink, 204, y, Rule::MinRed, b"minimum red");
    put_rule_key(draft, sink, 306, y, Rule::Conflict, b"conflict");
    put_rule_key(draft, sink, 386, y, Rule::Intergreen, b"intergreen");
    put_rule_key(draft, sink, 480, y, Rule::Sequence, b"sequence");
}

// Puts the rules of stage commands.
fn put_commands_key<O: Sink>(draft: &mut Draft, sink: &mut O, y: u32)
    requires { y ≤ 200000 }
    ensures { Puts O.taken O.faults draft.old draft.new sink.old sink.new (commands_key y) }
{
    put_rule_key(draft, sink, 568, y, Rule::Running, b"interstage runs");
    put_rule_key(draft, sink, 698, y, Rule::WrongStage, b"wrong stage");
    put_rule_key(draft, sink, 800, y, Rule::NoInterstage, b"no interstage");
}

// Puts the rules with their letters.
fn put_rules_key<O: Sink>(draft: &mut Draft, sink: &mut O, y: u32)
    requires { y ≤ 200000 }
    ensures { Puts O.taken O.faults draft.old draft.new sink.old sink.new (rules_key y) }
{
    put_label(draft, sink, b"o", 12, y + 10, b"refused:");
    put_turns_key(draft, sink, y);
    put_commands_key(draft, sink, y);
}

// Puts the ticks of fronts with their word.
fn put_fronts_key<O: Sink>(draft: &mut Draft, sink: &mut O, y: u32)
    requires { y ≤ 200000 }
    ensures { Puts O.taken O.faults draft.old draft.new sink.old sink.new (fronts_key y) }
{
    put_upright(draft, sink, b"t", 638, (y + 6, y + 12));
    put_upright(draft, sink, b"t", 646, (y + 3, y + 12));
    put_upright(draft, sink, b"t", 654, (y, y + 12));
    put_label(draft, sink, b"o", 664, y + 10, b"1, 2, more fronts");
}

// Puts the bar of a covered detector with its word.
fn put_cover_key<O: Sink>(draft: &mut Draft, sink: &mut O, y: u32)
    requires { y ≤ 200000 }
    ensures { Puts O.taken O.faults draft.old draft.new sink.old sink.new (cover_key y) }
{
    put_box(draft, sink, b"q", (800, y + 6), 24, 6);
    put_label(draft, sink, b"o", 830, y + 10, b"covered");
}

/// Puts the legend at this height.
pub fn put_legend<O: Sink>(draft: &mut Draft, sink: &mut O, y: u32)
    requires { y ≤ 100000 }
    ensures { Puts O.taken O.faults draft.old draft.new sink.old sink.new (legend_text y) }
{
    put_aspects_key(draft, sink, y);
    put_key(draft, sink, b"i", 436, y, b"interstage");
    put_fault_key(draft, sink, y);
    put_fronts_key(draft, sink, y);
    put_cover_key(draft, sink, y);
    put_rules_key(draft, sink, y + 20);
}

// Puts how a minimum green looks.
fn put_least_style<O: Sink>(draft: &mut Draft, sink: &mut O)
    ensures { Puts O.taken O.faults draft.old draft.new sink.old sink.new least_style }
{
    draft.put(
        sink,
        b"<style>.e{fill:#00562a;pointer-events:none}</style>\n",
    );
}

// Puts that and its key.
fn put_told_key<O: Sink>(draft: &mut Draft, sink: &mut O, width: u32)
    requires { width ≤ 3000 }
    ensures { Puts O.taken O.faults draft.old draft.new sink.old sink.new (told_key width) }
{
    put_least_style(draft, sink);
    put_key(
        draft,
        sink,
        b"e",
        width.saturating_sub(130),
        10,
        b"minimum green",
    );
}

/// Puts the key of minimum greens right of the title in a picture of this width, where there are some.
pub fn put_least_key<O: Sink>(draft: &mut Draft, sink: &mut O, width: u32, minimums: &[u8])
    requires { width ≤ 3000 }
    ensures { Puts O.taken O.faults draft.old draft.new sink.old sink.new (least_key width minimums.now) }
{
    if minimums.len() > 0 {
        put_told_key(draft, sink, width);
    }
}
