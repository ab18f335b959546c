use crate::programs::Pools;
use crate::rows::{Row, check_rows};
use mea_script::Status;

const EXAMPLES: &[Row] = &[
    // Two resources: who waits gets the one that comes back, with its value, and who waits when the drain begins is refused.
    Row {
        words: &["pool", "2"],
        script: "ask/poll 0 5/ask/poll 2 6/ask/poll 4 7/use 1 40/back 1/poll 4 8/idle/ask/poll 10 9/drain/poll 10 9/wait/poll 14 3/back 3/back 8/poll 14 4/idle",
        text: "made/lease 0 0/made/lease 1 1/made/pending/done/done wake 7/lease 0 40/count 0/made/pending/done wake 9/gone/made/pending/done/done wake 3/ready/count 2/done 20",
        status: Status::Done,
    },
    // A granted wait that ends lets the drain end, and a lease that was put back is not known any more.
    Row {
        words: &["pool", "1"],
        script: "ask/poll 0 1/ask/poll 2 2/back 1/drain/wait/poll 6 3/end 2/poll 6 4/ask/poll 10 5/back 1",
        text: "made/lease 0 0/made/pending/done wake 2/done/made/pending/done wake 3/ready/made/gone/unknown/done 13",
        status: Status::Done,
    },
    // The script of the folder examples/: two connections, of which one is used; a client waits for it and another gives up; then
    // the service stops and waits for both.
    Row {
        words: &["pool", "2"],
        script: "ask/poll 0 101/ask/poll 2 102/ask/poll 4 103/ask/poll 6 104/use 1 40/end 4/back 1/poll 6 104/idle/drain/wait/poll 14 9/ask/poll 16 105/back 3/back 11/poll 14 9/idle",
        text: "made/lease 0 0/made/lease 1 1/made/pending/made/pending/done/done/done wake 104/lease 0 40/count 0/done/made/pending/made/gone/done/done wake 9/ready/count 2/done 22",
        status: Status::Done,
    },
];

#[test]
fn examples(rt: HostRuntime) {
    check_rows::<Pools>(&rt, EXAMPLES);
}
