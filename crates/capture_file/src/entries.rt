//! The records of a result, as they are read.

ghost use Rattle.std.specs.Prelude.{◌≡◌};

use crate::RecordBytes;
use book_words::{JournalCall, Reply, Stamp};
use io_caps::{Flags, ListOf, NoMemory, TryCopy};
use std::marker::Model;

/// A claim of a result, whose packet the result's bytes lend. Contracts see it as the claim.
#[derive(Debug, Drop)]
pub struct ClaimRecord<'a> {
    /// The claim's number.
    pub k: u64,
    /// Per input, whether the claim's row names it and its block was found.
    pub found: Flags,
    /// The bytes of its RTP packet.
    pub packet: RecordBytes<'a>,
}

impl<'a> Model for ClaimRecord<'a> {
    ghost use Rattle.book_words.specs.declared.history.ClaimItem.{ClaimItem};

    ghost Value = { ClaimItem };

    ghost use Rattle.book_words.specs.History.{claim_item};

    ghost view = { λ c. claim_item c.k c.found c.packet };
}

/// The words of a reply of a result.
#[derive(Debug, Drop)]
pub enum SaidRecord<'a> {
    /// The reply to a plain request.
    Plain(Reply),
    /// The bytes of an HTTP response, which the result's bytes lend.
    Http(RecordBytes<'a>),
}

/// A reply of a result. Contracts see it as the reply.
#[derive(Debug, Drop)]
pub struct ReplyRecord<'a> {
    pub client: u8,
    pub stamp: Stamp,
    pub said: SaidRecord<'a>,
}

impl<'a> Model for ReplyRecord<'a> {
    ghost use Rattle.book_words.specs.declared.history.ReplyItem.{ReplyItem};

    ghost Value = { ReplyItem };

    ghost use Rattle.book_words.specs.History.{reply_item};
    ghost use Rattle.capture_file.specs.Entries.{said_of};

    ghost view = { λ r. reply_item r.client r.stamp (said_of r.said) };
}

/// A record of a result.
#[derive(Debug, Drop)]
pub enum ResultItem<'a> {
    Claim(ClaimRecord<'a>),
    Call(JournalCall),
    Reply(ReplyRecord<'a>),
    /// The last record.
    End,
}

/// The records of a result, each with the place of its tag.
pub type ResultFile<'a> = ListOf<(u64, ResultItem<'a>)>;

impl<'a> TryCopy for ClaimRecord<'a> {
    fn copy(&self) -> Result<ClaimRecord<'a>, NoMemory> {
        Ok(ClaimRecord {
            k: self.k,
            found: self.found.copy()?,
            packet: self.packet.copy()?,
        })
    }
}

impl<'a> TryCopy for SaidRecord<'a> {
    fn copy(&self) -> Result<SaidRecord<'a>, NoMemory> {
        match self {
            SaidRecord::Plain(reply) => Ok(SaidRecord::Plain(reply.copy()?)),
            SaidRecord::Http(bytes) => Ok(SaidRecord::Http(bytes.copy()?)),
        }
    }
}

impl<'a> TryCopy for ReplyRecord<'a> {
    fn copy(&self) -> Result<ReplyRecord<'a>, NoMemory> {
        Ok(ReplyRecord {
            client: self.client,
            stamp: self.stamp,
            said: self.said.copy()?,
        })
    }
}

impl<'a> TryCopy for ResultItem<'a> {
    fn copy(&self) -> Result<ResultItem<'a>, NoMemory> {
        match self {
            ResultItem::Claim(claim) => Ok(ResultItem::Claim(claim.copy()?)),
            ResultItem::Call(call) => Ok(ResultItem::Call(call.copy()?)),
            ResultItem::Reply(reply) => Ok(ResultItem::Reply(reply.copy()?)),
            ResultItem::End => Ok(ResultItem::End),
        }
    }
}
