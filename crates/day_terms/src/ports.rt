//! Decides whether a port stands twice among those of lines A and B.
ghost use Rattle.std.specs.Prelude.{◌≡◌, ◌++◌, IfOk, nat_eq};
ghost use Rattle.tape_types.specs.Names.{has_repeat};

use std::alloc::{AllocError, Global};

/// Returns whether a port stands twice. All pairs are compared.
fn has_repeat(ports: &[u16]) -> bool
    ensures { result ≡ has_repeat nat_eq ports.now }
{
    for (i, port) in ports.iter().enumerate() {
        if ports[i + 1..].contains(port) {
            return true;
        }
    }
    false
}

/// Returns whether a port stands twice in these two lists together.
pub fn share_a_port(alloc: Global, a: &[u16], b: &[u16]) -> Result<bool, AllocError>
    ensures { IfOk result (λ share. share ≡ has_repeat nat_eq (a.now ++ b.now)) }
{
    let mut ports = Vec::new(alloc);
    ports.extend_from_slice(a)?;
    ports.extend_from_slice(b)?;
    Ok(has_repeat(&ports))
}
