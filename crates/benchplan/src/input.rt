// What standard input holds, as far as a card may go.
use std::io;
use std::io::Read;

// One byte more than a card may have: an input without end is refused for its length, and not waited for.
const MOST_BYTES: u64 = 16385;

pub(crate) fn card_bytes(rt: &HostRuntime) -> io::Result<Vec<u8>> {
    let mut bytes = Vec::new(rt.alloc());
    rt.stdin().take(MOST_BYTES).read_to_end(&mut bytes)?;
    Ok(bytes)
}
