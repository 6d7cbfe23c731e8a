//! The most declarations that the rules of the style sheets may hold.
use cssq::runs::RunFault;
use std::env;
use std::env::VarError;
use std::process::ExitCode;

/// The environment variable that sets the limit.
const LIMIT: &str = "CSSQ_LIMIT";

/// Returns the limit that the environment sets, and `usize::MAX` if it sets none. If what it sets is
/// no number, or memory runs out, the error is the exit status, after a line that says so.
pub(crate) fn read_limit(rt: &HostRuntime) -> Result<usize, ExitCode> {
    let set = match env::var(rt, LIMIT) {
        Ok(text) => text.as_str().parse::<usize>().ok(),
        Err(VarError::NotPresent) => Some(usize::MAX),
        Err(VarError::NotUnicode) => None,
        Err(VarError::OutOfMemory) => {
            let _ = eprintln!(rt; "{}", RunFault::Memory);
            return Err(ExitCode::from(RunFault::Memory.status()));
        }
    };
    match set {
        Some(most) => Ok(most),
        None => {
            let _ = eprintln!(rt; "cssq: {LIMIT} is no number");
            Err(ExitCode::from(2))
        }
    }
}

/// Writes that the rules would hold more declarations than the limit. An error of standard error is
/// ignored.
pub(crate) fn write_beyond(rt: &HostRuntime, most: usize) {
    let _ = eprintln!(rt; "cssq: the rules have more than {most} declarations ({LIMIT})");
}
