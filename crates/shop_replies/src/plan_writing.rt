// A plan in words, written to a writer that may fail.
ghost use Rattle.std.specs.Prelude.{◌<◌, ◌≡◌, length, IsTrue, flat_map};
ghost use Rattle.std.specs.Io.KnownBytes.{Appends};
ghost use Rattle.file_listings.specs.ProSteps.{count_line, plan_in, plan_line, plan_text, step_at};
ghost use Rattle.shop_replies.specs.Reply.{AppendsFront};

use crate::writing::write_whole;
use file_listings::ProSteps;
use std::io::Write;

// Writes the line of a step, or as much of it as the writer takes, and answers whether it took all.
fn write_step<W: Write>(lines: &mut ProSteps, number: usize, writer: &mut W) -> bool
    requires { number < length (plan_in lines.old).steps }
    ensures whole { IsTrue result → Appends (W.contents writer.old) (W.contents writer.new)
        (plan_line (plan_in lines.old) (step_at (plan_in lines.old) number)) }
    ensures front { AppendsFront (W.contents writer.old) (W.contents writer.new)
        (plan_line (plan_in lines.old) (step_at (plan_in lines.old) number)) }
    ensures plan { plan_in lines.new ≡ plan_in lines.old }
{
    lines.make_step(number).is_ok() && write_whole(lines.line(), writer)
}

// Writes the lines of all steps, or as much of them as the writer takes, and answers whether it took all.
fn write_steps<W: Write>(lines: &mut ProSteps, writer: &mut W) -> bool
    ensures whole { IsTrue result → Appends (W.contents writer.old) (W.contents writer.new)
        (flat_map (plan_line (plan_in lines.old)) (plan_in lines.old).steps) }
    ensures front { AppendsFront (W.contents writer.old) (W.contents writer.new)
        (flat_map (plan_line (plan_in lines.old)) (plan_in lines.old).steps) }
    ensures plan { plan_in lines.new ≡ plan_in lines.old }
{
    for number in 0..lines.steps() {
        if !write_step(lines, number, writer) {
            return false;
        }
    }
    true
}

// Writes the last line, or as much of it as the writer takes, and answers whether it took all.
fn write_count<W: Write>(lines: &mut ProSteps, writer: &mut W) -> bool
    ensures whole { IsTrue result
        → Appends (W.contents writer.old) (W.contents writer.new) (count_line (plan_in lines.old)) }
    ensures front { AppendsFront (W.contents writer.old) (W.contents writer.new) (count_line (plan_in lines.old)) }
{
    lines.make_count().is_ok() && write_whole(lines.line(), writer)
}

// Writes the lines of a plan, each as it is made, or as many bytes of them as the writer takes, and answers whether it
// took all.
pub(crate) fn write_plan<W: Write>(lines: &mut ProSteps, writer: &mut W) -> bool
    ensures whole { IsTrue result
        → Appends (W.contents writer.old) (W.contents writer.new) (plan_text (plan_in lines.old)) }
    ensures front { AppendsFront (W.contents writer.old) (W.contents writer.new) (plan_text (plan_in lines.old)) }
{
    write_steps(lines, writer) && write_count(lines, writer)
}
