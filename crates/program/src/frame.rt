// The frame that the programs print a label in.
ghost use Rattle.std.specs.Iterator.{IsFinite};

use preview::lines::rule_line;
use std::alloc::AllocError;
use std::io;

// Prints rows between the top and the bottom of the frame, each as it is drawn.
pub fn print_framed<I: Iterator<Item = Result<String, AllocError>>>(
    rt: &HostRuntime,
    columns: usize,
    rows: I,
) -> io::Result<()>
    requires can { I.can_next rows }
    requires ends { IsFinite (I.remaining rows) }
{
    let rule = rule_line(rt.alloc(), columns)?;
    rt.println(rule.as_str())?;
    for row in rows {
        rt.println(row?)?;
    }
    rt.println(rule.as_str())
}
