//! Why a row gives no value. The message of each layer's error goes into the answer as it is.
use prv_board::ApplyError;
use prv_check::CheckError;
use prv_lex::LexError;
use prv_line::LineError;
use prv_marks::PairError;
use prv_parse::ParseError;
use prv_pool::PoolError;
use prv_record::DecodeError;
use prv_settle::SettleAtError;
use prv_version::VersionError;
use std::alloc::AllocError;
use std::num::ParseIntError;
use thiserror::Error;

/// Why a row gives no value.
#[derive(Debug, Drop, Error)]
pub enum Refusal {
    #[error(transparent)]
    Lex(#[from] LexError),
    #[error(transparent)]
    Parse(#[from] ParseError),
    #[error(transparent)]
    Version(#[from] VersionError),
    #[error(transparent)]
    Pair(#[from] PairError),
    #[error(transparent)]
    Line(#[from] LineError),
    #[error(transparent)]
    Pool(#[from] PoolError),
    #[error(transparent)]
    Settle(#[from] SettleAtError),
    #[error(transparent)]
    Apply(#[from] ApplyError),
    #[error(transparent)]
    Check(#[from] CheckError),
    #[error(transparent)]
    Decode(#[from] DecodeError),
    #[error(transparent)]
    Number(#[from] ParseIntError),
    #[error("no such row")]
    Row,
    #[error("out of memory")]
    Memory(#[from(alloc)] AllocError),
}
