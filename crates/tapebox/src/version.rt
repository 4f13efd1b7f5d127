//! The program's version, and how it was built.

use crate::files::read_file;
use std::alloc::{Alloc, AllocError, Global};
use std::fs::Files;
use std::{env, str};

/// The program's version.
pub const VERSION: &str = "1.0";

/// The text if nothing says how the program was built.
const UNKNOWN: &str = "build unknown";

/// Returns the first line of the file beside the program that says how it was built, if there is one. Its name is the program's
/// with `.build` behind it.
fn build_line<R: Files + Alloc<A = Global>>(rt: &R) -> Option<String> {
    let alloc = rt.alloc();
    let program = env::current_exe(rt).ok()?;
    let name = format!(in alloc; "{}.build", program.display()).ok()?;
    let text = read_file(rt, alloc, &name).ok()?;
    let line = str::from_utf8(&text).ok()?.lines().next()?;
    String::from_str(alloc, line).ok()
}

/// Returns the program's version and how it was built, with a line feed. It fails if memory runs out.
pub fn version_text<R: Files + Alloc<A = Global>>(rt: &R) -> Result<Vec<u8>, AllocError> {
    let build = build_line(rt);
    let build = build.as_deref().unwrap_or(UNKNOWN);
    let text = format!(in rt.alloc(); "tapebox {VERSION}, {build}\n")?;
    Ok(text.into_bytes())
}
