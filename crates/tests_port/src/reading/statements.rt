//! Statements with their offsets.

use crate::same::same;
use simplecss::{Silent, StatementReader};
use std::fmt::Write as _;
use std::test::Fail;

#[test]
fn reads_statements_with_their_offsets(rt: HostRuntime) -> Result<(), Fail> {
    let text = "/* x */ a { b:c } @x; d, e { f:g } /* h";
    let mut reader = StatementReader::new(text);
    let mut reported = String::new(rt.alloc());
    for _ in 0..5 {
        let Some(statement) = reader.read_next(&mut Silent, rt.alloc())? else {
            reported.push_str("none\n")?;
            continue;
        };
        write!(reported, "{} {}", statement.start, statement.end)?;
        for rule in &statement.rules {
            write!(reported, " {rule}")?;
        }
        reported.push('\n')?;
    }
    let wanted = "8 17 a { b:c; }\n18 21\n22 34 d { f:g; } e { f:g; }\nnone\nnone\n";
    same(&rt, reported.as_str(), wanted, text);
    Ok(())
}
