use crate::failure::Failure;
use crate::network;

// Prints joins, depth and fan-out of a network.
// Not inlined, nor are the other commands: each then needs the stack of its own work alone.
#[inline(never)]
pub fn command(rt: &HostRuntime, rest: &[&str]) -> Result<(), Failure> {
    let network = network::draw(rt, rest)?;
    let measure = network.closed().measure();
    println!(rt; "{measure}")?;
    Ok(())
}
