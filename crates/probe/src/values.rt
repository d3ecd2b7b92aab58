// Answers for one value of c after another.
use crate::parts::Request;
use crate::say::Line;
use std::io;

// Each further one on a line of its own, but where it is the one before. Answers are compared, and not their lines, which are
// dear to make and to compare: so answers that differ need lines that differ.
pub fn lines<A: Copy + PartialEq, F: Fn(u32) -> A, L: Fn(A) -> Line>(
    rt: &impl Print,
    request: Request,
    ask: F,
    line: L,
) -> io::Result<()>
    requires asks { F.IsAlwaysCallable ask }
    requires shows { L.IsAlwaysCallable line }
{
    let start = request.c();
    let last = start.saturating_add(request.times().saturating_sub(1));
    let mut before = ask(start);
    rt.print(line(before))?;
    for answered in start..last {
        let c = answered + 1;
        let answer = ask(c);
        if answer != before {
            print!(rt; "\n{c}: {}", line(answer))?;
        }
        before = answer;
    }
    Ok(())
}
