// The record that a replay is lent, made from a byte of the stream.
use replaying_step::runs::RunRecord;

// Entry i: of the states k + i, modulo 256; of the heads 1,000 · k + i; of the lengths 2,000 · k + i.
pub(crate) fn record_from(k: u8) -> RunRecord {
    let head = 1000 * k as usize;
    let length = 2000 * k as usize;
    RunRecord {
        states: [k, k.wrapping_add(1), k.wrapping_add(2), k.wrapping_add(3)],
        heads: [head, head + 1, head + 2, head + 3],
        lengths: [length, length + 1, length + 2, length + 3],
    }
}
