// The program: from the words and a source to a text in a sink.
ghost use Rattle.std.specs.Prelude.{◌≡◌, ◌↔◌, ◌≤◌, true, false};
ghost use Rattle.std.specs.Io.KnownBytes.{Appends};
ghost use Rattle.ds_base.specs.Outside.{Rose};
ghost use Rattle.dart_sites.specs.Outside.{ReadTooMuch, ReadWithin};
ghost use Rattle.dart_sites.specs.Words.{NoRequest, texts};
ghost use Rattle.dart_sites.specs.Top.{WholeWritten, PartWritten, CutShort, NoSource, OverLimit, SourceRefused, RequestRefused, LineWritten, RefusalWritten, IsAccepted, IsRunAnswer, IsFinish};

use crate::reading::{Input, read_all};
use crate::status::Status;
use crate::telling::{Outcome, Told, tell};
use crate::words::read_request;
use crate::writing::write_all;
use ds_base::{Gate, Sink, Source};
use std::alloc::Global;
use std::thread::Threads;

/// All that the program does with one worker: it reads the source, runs it and writes the text.
pub fn dart_sites_one<S: Source, K: Sink>(
    alloc: Global,
    words: &[String],
    source: &mut S,
    sink: &mut K,
) -> Status
    // The text that the request defines for the bytes read is written: the entry's lines and ending are those of its meaning, with lookup at
    // every call; each site's count is that of the calls that asked it; its state is the fold over the classes called there.
    ensures done { result ≡ Status.Done → WholeWritten (texts words.now) (S.rest source.old) (S.rest source.new) (K.written sink.old) (K.written sink.new) true }
    ensures entry_fault { result ≡ Status.EntryFault → WholeWritten (texts words.now) (S.rest source.old) (S.rest source.new) (K.written sink.old) (K.written sink.new) false }

    // Each other answer but want of memory has its cause.
    ensures bad_words { (result ≡ Status.BadWords) ↔ NoRequest (texts words.now) }
    ensures untouched { result ≡ Status.BadWords → source.new ≡ source.old }
    ensures read_fault { result ≡ Status.ReadFault → Rose (S.faults source.old) (S.faults source.new) }
    ensures too_large { result ≡ Status.TooLarge → ReadTooMuch (S.rest source.old) (S.rest source.new) }
    ensures no_source { result ≡ Status.SyntaxRefused → SourceRefused NoSource (S.rest source.old) (S.rest source.new) (K.written sink.old) (K.written sink.new) (K.faults sink.old) (K.faults sink.new) }
    ensures names { result ≡ Status.NameRefused → RequestRefused (texts words.now) (S.rest source.old) (S.rest source.new) (K.written sink.old) (K.written sink.new) (K.faults sink.old) (K.faults sink.new) }
    ensures limits { result ≡ Status.LimitRefused → SourceRefused OverLimit (S.rest source.old) (S.rest source.new) (K.written sink.old) (K.written sink.new) (K.faults sink.old) (K.faults sink.new) }
    ensures write_fault { result ≡ Status.WriteFault → Rose (K.faults sink.old) (K.faults sink.new) }
    ensures cut_short { result ≡ Status.WriteFault → PartWritten (texts words.now) (S.rest source.old) (S.rest source.new) (K.written sink.old) (K.written sink.new) }

    // A refusal writes its line and nothing else, or a proper part of it where the sink fails; those of the bytes are above. At most one byte more than the limit is read.
    ensures refusal { RefusalWritten result (K.written sink.old) (K.written sink.new) (K.faults sink.old) (K.faults sink.new) }
    ensures bounded { ReadWithin (S.rest source.old) (S.rest source.new) }

    // What is accepted is run, where no read and no write fails, or memory is wanting.
    ensures complete { IsAccepted (texts words.now) (S.rest source.old) → ¬ Rose (S.faults source.old) (S.faults source.new) → ¬ Rose (K.faults sink.old) (K.faults sink.new) → IsRunAnswer result }
{
    let Some(request) = read_request(words) else {
        return refuse(sink, b"refused: words\n", Status::BadWords);
    };
    match read_all(alloc, source) {
        Input::NoMemory => refuse(sink, b"fault: memory\n", Status::NoMemory),
        Input::Failed => refuse(sink, b"fault: read\n", Status::ReadFault),
        Input::TooLarge => refuse(
            sink,
            b"refused: more than 1048576 bytes\n",
            Status::TooLarge,
        ),
        Input::Bytes(bytes) => match tell(alloc, request, bytes.as_slice()) {
            Outcome::NoMemory => refuse(sink, b"fault: memory\n", Status::NoMemory),
            Outcome::NoSource(line) => refuse(sink, line.as_slice(), Status::SyntaxRefused),
            Outcome::WrongNames(line) => refuse(sink, line.as_slice(), Status::NameRefused),
            Outcome::OverLimit(line) => refuse(sink, line.as_slice(), Status::LimitRefused),
            Outcome::Told(told) => finish(sink, &told),
        },
    }
}

/// All that the program does. No request asks for more than one worker yet.
pub fn dart_sites_main<R: Threads + Sync, S: Source, K: Sink, G: Gate>(
    _rt: &R,
    alloc: Global,
    words: &[String],
    source: &mut S,
    sink: &mut K,
    _gate: &G,
) -> Status
    // The text that the request defines for the bytes read is written: the entry's lines and ending are those of its meaning, with lookup at
    // every call; each site's count is that of the calls that asked it; its state is the fold over the classes called there.
    ensures done { result ≡ Status.Done → WholeWritten (texts words.now) (S.rest source.old) (S.rest source.new) (K.written sink.old) (K.written sink.new) true }
    ensures entry_fault { result ≡ Status.EntryFault → WholeWritten (texts words.now) (S.rest source.old) (S.rest source.new) (K.written sink.old) (K.written sink.new) false }

    // Each other answer but want of memory has its cause.
    ensures bad_words { (result ≡ Status.BadWords) ↔ NoRequest (texts words.now) }
    ensures untouched { result ≡ Status.BadWords → source.new ≡ source.old }
    ensures read_fault { result ≡ Status.ReadFault → Rose (S.faults source.old) (S.faults source.new) }
    ensures too_large { result ≡ Status.TooLarge → ReadTooMuch (S.rest source.old) (S.rest source.new) }
    ensures no_source { result ≡ Status.SyntaxRefused → SourceRefused NoSource (S.rest source.old) (S.rest source.new) (K.written sink.old) (K.written sink.new) (K.faults sink.old) (K.faults sink.new) }
    ensures names { result ≡ Status.NameRefused → RequestRefused (texts words.now) (S.rest source.old) (S.rest source.new) (K.written sink.old) (K.written sink.new) (K.faults sink.old) (K.faults sink.new) }
    ensures limits { result ≡ Status.LimitRefused → SourceRefused OverLimit (S.rest source.old) (S.rest source.new) (K.written sink.old) (K.written sink.new) (K.faults sink.old) (K.faults sink.new) }
    ensures write_fault { result ≡ Status.WriteFault → Rose (K.faults sink.old) (K.faults sink.new) }
    ensures cut_short { result ≡ Status.WriteFault → PartWritten (texts words.now) (S.rest source.old) (S.rest source.new) (K.written sink.old) (K.written sink.new) }

    // A refusal writes its line and nothing else, or a proper part of it where the sink fails; those of the bytes are above. At most one byte more than the limit is read.
    ensures refusal { RefusalWritten result (K.written sink.old) (K.written sink.new) (K.faults sink.old) (K.faults sink.new) }
    ensures bounded { ReadWithin (S.rest source.old) (S.rest source.new) }

    // What is accepted is run, where no read and no write fails, or memory is wanting.
    ensures complete { IsAccepted (texts words.now) (S.rest source.old) → ¬ Rose (S.faults source.old) (S.faults source.new) → ¬ Rose (K.faults sink.old) (K.faults sink.new) → IsRunAnswer result }
{
    dart_sites_one(alloc, words, source, sink)
}

/// Writes the line of a refusal, whose status stays also where the write fails.
fn refuse<K: Sink>(sink: &mut K, line: &[u8], status: Status) -> Status
    ensures status { result ≡ status }
    ensures later { K.faults sink.old ≤ K.faults sink.new }
    ensures line { LineWritten (K.written sink.old) (K.written sink.new) (K.faults sink.old) (K.faults sink.new) line.now }
{
    write_all(sink, line);
    status
}

/// Writes a text whole, or up to a write that fails.
fn finish<K: Sink>(sink: &mut K, told: &Told) -> Status
    ensures done { result ≡ Status.Done → (told.now.all_done ≡ true) × Appends (K.written sink.old) (K.written sink.new) told.now.text.items }
    ensures entry_fault { result ≡ Status.EntryFault → (told.now.all_done ≡ false) × Appends (K.written sink.old) (K.written sink.new) told.now.text.items }
    ensures write_fault { result ≡ Status.WriteFault → Rose (K.faults sink.old) (K.faults sink.new) }
    ensures cut_short { result ≡ Status.WriteFault → CutShort (K.written sink.old) (K.written sink.new) told.now.text.items }
    ensures no_other { IsFinish result }
{
    if !write_all(sink, told.text.as_slice()) {
        return Status::WriteFault;
    }
    if told.all_done {
        Status::Done
    } else {
        Status::EntryFault
    }
}
