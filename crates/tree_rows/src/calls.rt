//! The calls of rows, by their words.
use crate::volume::Search;
use row_scripts::look_up;

/// A call.
#[derive(Clone, Copy)]
pub enum Call {
    Entry(EntryCall),
    Pair(PairCall),
    Tree(TreeCall),
    Chain(ChainCall),
    Volume(VolumeCall),
    Count(CountCall),
}

/// On the entry of a number.
#[derive(Clone, Copy)]
pub enum EntryCall {
    Insert,
    Remove,
    Drop,
    Find(Search),
}

/// With two numbers.
#[derive(Clone, Copy)]
pub enum PairCall {
    Value,
    Valued,
    Reads,
    Leaves,
    Thinner,
}

/// On the whole tree.
#[derive(Clone, Copy)]
pub enum TreeCall {
    First,
    Walk,
    Right,
    Check,
    Pages,
    Clear,
    Commit,
    Try,
    Drawn,
}

/// On chains.
#[derive(Clone, Copy)]
pub enum ChainCall {
    Lay,
    Record,
    Fill,
    Rewrite,
    Release,
    Bytes,
    Zeros,
}

/// A change of the volume. It has no answer.
#[derive(Clone, Copy)]
pub enum VolumeCall {
    Crash,
    Disturb { is_stop: bool },
    Allocate,
    Root,
    Reopen,
    Plant,
    Page,
    Swap,
    Count,
}

/// A count.
#[derive(Clone, Copy)]
pub enum CountCall {
    Read,
    Written,
    Changed,
    Free,
}

const CALLS: [(&[u8], Call); 41] = [
    (b"insert", Call::Entry(EntryCall::Insert)),
    (b"remove", Call::Entry(EntryCall::Remove)),
    (b"drop", Call::Entry(EntryCall::Drop)),
    (b"get", Call::Entry(EntryCall::Find(Search::Get))),
    (b"seek", Call::Entry(EntryCall::Find(Search::Seek))),
    (b"next", Call::Entry(EntryCall::Find(Search::Next))),
    (b"value", Call::Pair(PairCall::Value)),
    (b"valued", Call::Pair(PairCall::Valued)),
    (b"reads", Call::Pair(PairCall::Reads)),
    (b"leaves", Call::Pair(PairCall::Leaves)),
    (b"thinner", Call::Pair(PairCall::Thinner)),
    (b"first", Call::Tree(TreeCall::First)),
    (b"walk", Call::Tree(TreeCall::Walk)),
    (b"right", Call::Tree(TreeCall::Right)),
    (b"check", Call::Tree(TreeCall::Check)),
    (b"pages", Call::Tree(TreeCall::Pages)),
    (b"clear", Call::Tree(TreeCall::Clear)),
    (b"commit", Call::Tree(TreeCall::Commit)),
    (b"try", Call::Tree(TreeCall::Try)),
    (b"drawn", Call::Tree(TreeCall::Drawn)),
    (b"lay", Call::Chain(ChainCall::Lay)),
    (b"record", Call::Chain(ChainCall::Record)),
    (b"fill", Call::Chain(ChainCall::Fill)),
    (b"rewrite", Call::Chain(ChainCall::Rewrite)),
    (b"release", Call::Chain(ChainCall::Release)),
    (b"bytes", Call::Chain(ChainCall::Bytes)),
    (b"zeros", Call::Chain(ChainCall::Zeros)),
    (b"crash", Call::Volume(VolumeCall::Crash)),
    (
        b"fail",
        Call::Volume(VolumeCall::Disturb { is_stop: false }),
    ),
    (b"stop", Call::Volume(VolumeCall::Disturb { is_stop: true })),
    (b"allocate", Call::Volume(VolumeCall::Allocate)),
    (b"root", Call::Volume(VolumeCall::Root)),
    (b"reopen", Call::Volume(VolumeCall::Reopen)),
    (b"plant", Call::Volume(VolumeCall::Plant)),
    (b"page", Call::Volume(VolumeCall::Page)),
    (b"swap", Call::Volume(VolumeCall::Swap)),
    (b"count", Call::Volume(VolumeCall::Count)),
    (b"read", Call::Count(CountCall::Read)),
    (b"written", Call::Count(CountCall::Written)),
    (b"changed", Call::Count(CountCall::Changed)),
    (b"free", Call::Count(CountCall::Free)),
];

/// The call of a word.
pub fn call_of(word: &[u8]) -> Option<Call> {
    look_up(&CALLS, word)
}
