// A call as numbers.
ghost use Rattle.std.specs.Prelude.{◌≡◌, Some, T};
ghost use Rattle.std.specs.Result.{result_ok};
ghost use Rattle.playback.specs.Numbers.{op_in, op_of};

use crate::code;
use things::Op;

// Which of the 18 calls it is, and what stands behind it; what a call doesn't have is not looked at.
#[repr(C)]
#[derive(Clone, Copy, PartialEq, Eq, Default)]
pub struct Asked {
    pub code: u32,
    pub name: u32,
    // the second name of split, join, cut and merge
    pub other: u32,
    // a place, or a key
    pub at: u64,
    pub word: u64,
}

// What is asked, and which blocks are refused meanwhile: the getting with this number, and every one while `room` blocks are held; 0: none. Numbers, since C passes them and has no Option.
#[repr(C)]
#[derive(Clone, Copy, Default)]
pub struct Call {
    pub asked: Asked,
    pub refuse: u64,
    pub room: u64,
}

// Its code is of no call.
#[derive(Clone, Copy, Debug, PartialEq, Eq)]
pub struct UnknownCode;

impl Asked {
    fn new(code: u32, name: u32, other: u32, at: u64, word: u64) -> Asked
        ensures { result ≡ record { code = code; name = name; other = other; «at» = «at»; word = word } }
    {
        Asked {
            code,
            name,
            other,
            at,
            word,
        }
    }

    // Whether this asks what a call does, in which what it doesn't have may differ.
    pub(crate) fn asks_as(self, call: Asked) -> bool
        ensures { T result → op_of self ≡ op_of call }
    {
        match Op::try_from(call) {
            Ok(o) => self == Asked::from(o),
            Err(_) => false,
        }
    }
}

impl From<Op> for Asked {
    ghost from_gives = { λ o asked. op_in asked ≡ Some o };

    fn from(o: Op) -> Asked {
        match o {
            Op::Row(n) => Asked::new(code::ROW, n, 0, 0, 0),
            Op::Table(n) => Asked::new(code::TABLE, n, 0, 0, 0),
            Op::Free(n) => Asked::new(code::FREE, n, 0, 0, 0),
            Op::Length(n) => Asked::new(code::LENGTH, n, 0, 0, 0),
            Op::At(n, i) => Asked::new(code::AT, n, 0, i, 0),
            Op::Set(n, i, x) => Asked::new(code::SET, n, 0, i, x),
            Op::Insert(n, i, x) => Asked::new(code::INSERT, n, 0, i, x),
            Op::Delete(n, i) => Asked::new(code::DELETE, n, 0, i, 0),
            Op::Split(n, i, m) => Asked::new(code::SPLIT, n, m, i, 0),
            Op::Join(n, m) => Asked::new(code::JOIN, n, m, 0, 0),
            Op::Put(n, k, x) => Asked::new(code::PUT, n, 0, k, x),
            Op::Get(n, k) => Asked::new(code::GET, n, 0, k, 0),
            Op::Drop(n, k) => Asked::new(code::DROP, n, 0, k, 0),
            Op::Least(n, k) => Asked::new(code::LEAST, n, 0, k, 0),
            Op::Count(n, k) => Asked::new(code::COUNT, n, 0, k, 0),
            Op::Nth(n, i) => Asked::new(code::NTH, n, 0, i, 0),
            Op::Cut(n, k, m) => Asked::new(code::CUT, n, m, k, 0),
            Op::Merge(n, m) => Asked::new(code::MERGE, n, m, 0, 0),
        }
    }
}

impl TryFrom<Asked> for Op {
    type Error = UnknownCode;

    ghost try_from_gives = { λ asked o. result_ok o ≡ op_in asked };

    fn try_from(asked: Asked) -> Result<Op, UnknownCode> {
        let Asked {
            code,
            name: n,
            other: m,
            at: i,
            word: x,
        } = asked;
        Ok(match code {
            code::ROW => Op::Row(n),
            code::TABLE => Op::Table(n),
            code::FREE => Op::Free(n),
            code::LENGTH => Op::Length(n),
            code::AT => Op::At(n, i),
            code::SET => Op::Set(n, i, x),
            code::INSERT => Op::Insert(n, i, x),
            code::DELETE => Op::Delete(n, i),
            code::SPLIT => Op::Split(n, i, m),
            code::JOIN => Op::Join(n, m),
            code::PUT => Op::Put(n, i, x),
            code::GET => Op::Get(n, i),
            code::DROP => Op::Drop(n, i),
            code::LEAST => Op::Least(n, i),
            code::COUNT => Op::Count(n, i),
            code::NTH => Op::Nth(n, i),
            code::CUT => Op::Cut(n, i, m),
            code::MERGE => Op::Merge(n, m),
            _ => return Err(UnknownCode),
        })
    }
}
