//! From a record to the format of its sampling's kind.

ghost use Rattle.std.specs.Prelude.{◌≡◌, IfOk};
ghost use Rattle.theory.specs.Formats as formats;
ghost use Rattle.formats.specs.Announced.{announced};
ghost use Rattle.formats.specs.Meaning.{format_of};
ghost use Rattle.reports.specs.Announcing.{Announces, announced_for};

use formats::{Format, SampledKind};
use kinds::{Key, Rgb, Xyz, Ycc420, Ycc422, Ycc444};
use records::{Record, Sampling};
use refusals::Refusal;

/// How a stream is told apart from others.
#[derive(Clone, Copy)]
pub struct Stream {
    pub payload_type: u8,
    pub ssrc: u32,
}

/// What is done with a format, whatever its kind.
pub trait FormatTask {
    type Out;

    /// How the task is left by a format, and with which outcome.
    ghost Leaves: { Self → formats.Format → Self.Out → Self → Type 0 };

    fn run<K: SampledKind + Copy>(&mut self, format: &Format<K>) -> Self::Out
        ensures { Leaves self.old (format_of K.GroupKind.kind format.now) result self.new };
}

/// Does a task with the format that a record announces, of the kind of its sampling: refusal 4 outside the limits, and the task stays.
pub fn with_format<T: FormatTask>(
    record: &Record,
    stream: Stream,
    task: &mut T,
) -> Result<T::Out, Refusal>
    ensures which { Announces (announced_for «record».now stream.payload_type stream.ssrc) T.FormatTask.Leaves task.old result task.new }
    ensures done { IfOk result (λ out. (format : formats.Format) × T.FormatTask.Leaves task.old format out task.new) }
{
    match record.sampling {
        Sampling::YCbCr444 | Sampling::ClYCbCr444 | Sampling::ICtCp444 => {
            with_kind(record, stream, task, Ycc444)
        }
        Sampling::YCbCr422 | Sampling::ClYCbCr422 | Sampling::ICtCp422 => {
            with_kind(record, stream, task, Ycc422)
        }
        Sampling::YCbCr420 | Sampling::ClYCbCr420 | Sampling::ICtCp420 => {
            with_kind(record, stream, task, Ycc420)
        }
        Sampling::Rgb => with_kind(record, stream, task, Rgb),
        Sampling::Xyz => with_kind(record, stream, task, Xyz),
        Sampling::Key => with_kind(record, stream, task, Key),
    }
}

fn with_kind<T: FormatTask, K: SampledKind + Copy>(
    record: &Record,
    stream: Stream,
    task: &mut T,
    kind: K,
) -> Result<T::Out, Refusal>
    ensures which { Announces (announced K.SampledKind.served (K.GroupKind.kind kind) «record».now stream.payload_type stream.ssrc) T.FormatTask.Leaves task.old result task.new }
    ensures done { IfOk result (λ out. (format : formats.Format) × T.FormatTask.Leaves task.old format out task.new) }
{
    let format = Format::announced(kind, record, stream.payload_type, stream.ssrc)?;
    Ok(task.run(&format))
}
