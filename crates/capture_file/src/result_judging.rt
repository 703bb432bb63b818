//! The records of a result, each judged by what stands before it.

ghost use Rattle.std.specs.Prelude.{◌≡◌};
ghost use Rattle.capture_file.specs.ResultFault.{result_sort, IsAdded, IsClosed, IsStep};
ghost use Rattle.capture_file.specs.ResultFault.{JudgesResult};
ghost use Rattle.capture_file.specs.Walk.{IsJudged};

use crate::before::RecordKind;
use crate::result_records::{is_client_there, read_result_item};
use crate::walk::{Judge, Step};
use crate::{CaptureKind, Format, ResultFile, ResultItem, tags};
use exact_text::Misread;
use io_caps::{Device, Or};
use std::alloc::Global;
use std::marker::Model;

/// What stands before a record of a result: the format, the device, and the records with their
/// places.
#[derive(Debug, Drop)]
pub(crate) struct ResultFront<'d, 'a> {
    pub(crate) format: Format,
    pub(crate) device: &'d Device,
    pub(crate) records: ResultFile<'a>,
}

impl<'d, 'a> Model for ResultFront<'d, 'a> {
    ghost use Rattle.capture_file.specs.ResultFault.{ResultFrontParts, result_front};

    ghost Value = { ResultFrontParts };

    ghost view = { λ b. result_front b.format b.device.now b.records };
}

/// What a tag says in a result.
fn result_sort(tag: u8) -> RecordKind
    ensures { result ≡ result_sort tag }
{
    match tag {
        tags::CLAIM | tags::CALL | tags::REPLY => RecordKind::ItemRecord,
        tags::END => RecordKind::EndRecord,
        _ => RecordKind::NoRecord(CaptureKind::Tag),
    }
}

type Judged<'d, 'a> = Result<Step<ResultFront<'d, 'a>, ResultFile<'a>>, Or<CaptureKind>>;

fn add_item<'d, 'a>(
    alloc: Global,
    before: ResultFront<'d, 'a>,
    at: usize,
    tag: u8,
    body: &'a [u8],
) -> Judged<'d, 'a>
    ensures { IsJudged (IsAdded before.entry at tag body.now) result }
{
    let ResultFront {
        format,
        device,
        mut records,
    } = before;
    let item = match read_result_item(alloc, format, device, tag, body) {
        Ok(item) => item,
        Err(Misread::NoReading) => return Err(Or::Fault(CaptureKind::Body)),
        Err(Misread::NoMemory) => return Err(Or::NoMemory),
    };
    if !is_client_there(&item) {
        return Err(Or::Fault(CaptureKind::Body));
    }
    records.push((at as u64, item))?;
    Ok(Step::Next(ResultFront {
        format,
        device,
        records,
    }))
}

fn add_end<'d, 'a>(before: ResultFront<'d, 'a>, at: usize, body: &[u8]) -> Judged<'d, 'a>
    ensures { IsJudged (IsClosed before.entry at body.now) result }
{
    let ResultFront { mut records, .. } = before;
    if !body.is_empty() {
        return Err(Or::Fault(CaptureKind::Body));
    }
    records.push((at as u64, ResultItem::End))?;
    Ok(Step::Last(records))
}

fn take_record<'d, 'a>(
    alloc: Global,
    before: ResultFront<'d, 'a>,
    at: usize,
    tag: u8,
    body: &'a [u8],
) -> Judged<'d, 'a>
    ensures { IsJudged (IsStep (result_sort tag) before.entry at tag body.now) result }
{
    match result_sort(tag) {
        RecordKind::ItemRecord => add_item(alloc, before, at, tag, body),
        RecordKind::EndRecord => add_end(before, at, body),
        RecordKind::NoRecord(kind) => Err(Or::Fault(kind)),
    }
}

impl<'d, 'a> Judge<'a, ResultFile<'a>, CaptureKind> for ResultFront<'d, 'a> {
    ghost judges = { JudgesResult };

    fn judge(self, alloc: Global, at: usize, tag: u8, body: &'a [u8]) -> Judged<'d, 'a> {
        take_record(alloc, self, at, tag, body)
    }
}
