// The program's whole work on bytes in memory.

// The output for a policy text and up to 65,536 bytes of queries, in a buffer that has room for the longest one: its length, or
// 0 where there are more bytes or there is less room.
#[unsafe(no_mangle)]
pub extern "C" fn measure_run(policy: &[u8], queries: &[u8], out: &mut [u8]) -> u64 {
    if run::MOST_QUERIES < queries.len() {
        return 0;
    }
    if out.len() < run::MOST_OUTPUT {
        return 0;
    }
    run::run(policy, queries, out) as u64
}
