//! The command that the words name.

ghost use Rattle.std.specs.Prelude.{◌≡◌, ◌≤◌};
ghost use Rattle.ygg_base.specs.declared.status.Status.TheVariants.{Refused};
ghost use Rattle.ygg_base.specs.Outside.{Rose};
ghost use Rattle.ygg_report.specs.Putting.{NoFront};
ghost use Rattle.ygg_top_command.specs.Reports.{Told};
ghost use Rattle.ygg_top_command.specs.Breaking.{ToldOn};
ghost use Rattle.ygg_top.specs.Ending.{EndsAlone, EndsOne, EndsThree, EndsTwo, LeavesOne, LeavesTwo, NamesNone};
ghost use Rattle.ygg_top.specs.Imaging.{EndsOn, IsLeftOn, IsBrokenOn, KeepsOn, UsesImage};

use crate::asking::cnf;
use crate::formatting::format;
use crate::help::{HELP, VERSION};
use crate::playing::play;
use crate::print_command::print;
use crate::running::run;
use crate::solving::{solve, solve_within};
use crate::words::{Alone, OnImage, One, Three, Two};
use crate::{
    certify, certify_within, check, decide, decide_within, demo, explain, replay, verify,
    verify_within,
};
use std::alloc::Global;
use ygg_base::{Device, Library, Reason, Sink, Status, Text};
use ygg_report::put_all;
use ygg_rules::{Book, RuleBook};
use ygg_top_command::{CommandStop, USUAL_BUDGET, end};

/// Runs the command that the words name, and ends with its status: `verify FILE`, `verify FILE BUDGET`, `print FILE`, `demo N`, `replay FILE SCHEDULE`,
/// `explain FILE SCHEDULE`, `play FILE SCRIPT`, `solve CNF`, `solve CNF BUDGET`, `cnf FILE OBLIGATION`, `decide FILE OBLIGATION`, `decide FILE OBLIGATION BUDGET`, `certify FILE`,
/// `certify FILE BUDGET`, `check FILE CERTIFICATE`, `format FILE IMAGE`, `run FILE CERTIFICATE IMAGE SCRIPT`, and alone `--help` or `--version`.
/// Other words are refused 71 at `0:0`. Nothing is printed before
/// all refusals are judged; the lines of `verify` are put one by one, each as soon as its obligation is decided, those of `play` as its history goes on, and
/// those of `run` as its commands are done; long texts of `certify`, `solve` and `cnf` piece by piece, and the others at the end. Only `format` and `run` use
/// the device.
/// What is ensured holds for every book of rules: they only make terms smaller.
pub fn ygg<L: Library, D: Device, K: Sink>(
    alloc: Global,
    words: &[Text],
    rules: &RuleBook,
    library: &mut L,
    device: &mut D,
    sink: &mut K,
) -> Status
    ensures told { ToldOn (EndsOn (⟦<RuleBook as Book>⟧.kinds rules.now) (L.files library.old) (D.images device.old) (D.images device.new) words.now)
        (IsLeftOn (⟦<RuleBook as Book>⟧.kinds rules.now) (L.files library.old) (D.images device.old) (D.images device.new) words.now)
        (IsBrokenOn (⟦<RuleBook as Book>⟧.kinds rules.now) (L.files library.old) (D.images device.old) (D.images device.new) words.now)
        (K.taken sink.old) (K.taken sink.new) (Rose (L.faults library.old) (L.faults library.new)) (Rose (D.faults device.old) (D.faults device.new))
        (Rose (K.faults sink.old) (K.faults sink.new)) result }
    ensures kept { L.files library.new ≡ L.files library.old }
    ensures leaves { KeepsOn (⟦<RuleBook as Book>⟧.kinds rules.now) (L.files library.old) (D.images device.old) (D.images device.new) (D.attached device.new)
        words.now }
    ensures unwritten { result ≡ Refused → D.images device.new ≡ D.images device.old }
    ensures spared { (UsesImage words.now → ⊥) → device.new ≡ device.old }
    ensures later_library { L.faults library.old ≤ L.faults library.new }
    ensures later_device { D.faults device.old ≤ D.faults device.new }
    ensures later_sink { K.faults sink.old ≤ K.faults sink.new }
{
    named(alloc, words, rules, library, device, sink)
}

/// The same for whatever answers as a book of rules does.
fn named<B: Book, L: Library, D: Device, K: Sink>(
    alloc: Global,
    words: &[Text],
    rules: &B,
    library: &mut L,
    device: &mut D,
    sink: &mut K,
) -> Status
    ensures told { ToldOn (EndsOn (B.kinds rules.now) (L.files library.old) (D.images device.old) (D.images device.new) words.now)
        (IsLeftOn (B.kinds rules.now) (L.files library.old) (D.images device.old) (D.images device.new) words.now)
        (IsBrokenOn (B.kinds rules.now) (L.files library.old) (D.images device.old) (D.images device.new) words.now)
        (K.taken sink.old) (K.taken sink.new) (Rose (L.faults library.old) (L.faults library.new)) (Rose (D.faults device.old) (D.faults device.new))
        (Rose (K.faults sink.old) (K.faults sink.new)) result }
    ensures kept { L.files library.new ≡ L.files library.old }
    ensures leaves { KeepsOn (B.kinds rules.now) (L.files library.old) (D.images device.old) (D.images device.new) (D.attached device.new) words.now }
    ensures unwritten { result ≡ Refused → D.images device.new ≡ D.images device.old }
    ensures spared { (UsesImage words.now → ⊥) → device.new ≡ device.old }
    ensures later_library { L.faults library.old ≤ L.faults library.new }
    ensures later_device { D.faults device.old ≤ D.faults device.new }
    ensures later_sink { K.faults sink.old ≤ K.faults sink.new }
{
    match words {
        [] => unnamed(alloc, sink),
        [only] => alone(alloc, Alone::of(only.as_slice()), sink),
        [command, first] => {
            let command = One::of(command.as_slice());
            with_one(alloc, rules, command, first, library, sink)
        }
        [command, first, second] => match OnImage::of(command.as_slice()) {
            OnImage::Format => format(alloc, first, second, library, device, sink),
            OnImage::Run | OnImage::Other => {
                let command = Two::of(command.as_slice());
                with_two(alloc, rules, command, first, second, library, sink)
            }
        },
        [command, first, second, third] => {
            let command = Three::of(command.as_slice());
            with_three(alloc, rules, command, first, second, third, library, sink)
        }
        [command, file, certificate, image, script] => match OnImage::of(command.as_slice()) {
            OnImage::Run => run(
                alloc,
                rules,
                file,
                certificate,
                image,
                script,
                library,
                device,
                sink,
            ),
            OnImage::Format | OnImage::Other => unnamed(alloc, sink),
        },
        _ => unnamed(alloc, sink),
    }
}

/// Refuses words that name no command.
fn unnamed<K: Sink>(alloc: Global, sink: &mut K) -> Status
    ensures told { Told NamesNone NoFront (K.taken sink.old) (K.taken sink.new) ⊥ (Rose (K.faults sink.old) (K.faults sink.new)) result }
    ensures later { K.faults sink.old ≤ K.faults sink.new }
{
    end(alloc, CommandStop::Refused(Reason::Words.at(0, 0)), sink)
}

/// A command of a word alone.
fn alone<K: Sink>(alloc: Global, command: Alone, sink: &mut K) -> Status
    ensures told { Told (EndsAlone command) NoFront (K.taken sink.old) (K.taken sink.new) ⊥ (Rose (K.faults sink.old) (K.faults sink.new)) result }
    ensures later { K.faults sink.old ≤ K.faults sink.new }
{
    match command {
        Alone::Help => put_all(sink, HELP, Status::Done),
        Alone::Version => put_all(sink, VERSION, Status::Done),
        Alone::Other => unnamed(alloc, sink),
    }
}

/// A command with one word after it.
fn with_one<B: Book, L: Library, K: Sink>(
    alloc: Global,
    rules: &B,
    command: One,
    word: &Text,
    library: &mut L,
    sink: &mut K,
) -> Status
    ensures told { Told (EndsOne (B.kinds rules.now) (L.files library.old) command word.now)
        (LeavesOne (B.kinds rules.now) (L.files library.old) command word.now) (K.taken sink.old) (K.taken sink.new)
        (Rose (L.faults library.old) (L.faults library.new)) (Rose (K.faults sink.old) (K.faults sink.new)) result }
    ensures kept { L.files library.new ≡ L.files library.old }
    ensures later_library { L.faults library.old ≤ L.faults library.new }
    ensures later_sink { K.faults sink.old ≤ K.faults sink.new }
{
    match command {
        One::Verify => verify(alloc, rules, word, USUAL_BUDGET, library, sink),
        One::Print => print(alloc, word, library, sink),
        One::Demo => demo(alloc, rules, word, sink),
        One::Solve => solve(alloc, word, USUAL_BUDGET, library, sink),
        One::Certify => certify(alloc, rules, word, USUAL_BUDGET, library, sink),
        One::Other => unnamed(alloc, sink),
    }
}

/// A command with two words after it.
fn with_two<B: Book, L: Library, K: Sink>(
    alloc: Global,
    rules: &B,
    command: Two,
    first: &Text,
    second: &Text,
    library: &mut L,
    sink: &mut K,
) -> Status
    ensures told { Told (EndsTwo (B.kinds rules.now) (L.files library.old) command first.now second.now)
        (LeavesTwo (B.kinds rules.now) (L.files library.old) command first.now second.now) (K.taken sink.old) (K.taken sink.new)
        (Rose (L.faults library.old) (L.faults library.new)) (Rose (K.faults sink.old) (K.faults sink.new)) result }
    ensures kept { L.files library.new ≡ L.files library.old }
    ensures later_library { L.faults library.old ≤ L.faults library.new }
    ensures later_sink { K.faults sink.old ≤ K.faults sink.new }
{
    match command {
        Two::Verify => verify_within(alloc, rules, first, second, library, sink),
        Two::Replay => replay(alloc, first, second, library, sink),
        Two::Explain => explain(alloc, first, second, library, sink),
        Two::Play => play(alloc, first, second, library, sink),
        Two::Solve => solve_within(alloc, first, second, library, sink),
        Two::Cnf => cnf(alloc, rules, first, second, library, sink),
        Two::Decide => decide(alloc, rules, first, second, USUAL_BUDGET, library, sink),
        Two::Certify => certify_within(alloc, rules, first, second, library, sink),
        Two::Check => check(alloc, rules, first, second, library, sink),
        Two::Other => unnamed(alloc, sink),
    }
}

/// A command with three words after it.
fn with_three<B: Book, L: Library, K: Sink>(
    alloc: Global,
    rules: &B,
    command: Three,
    first: &Text,
    second: &Text,
    third: &Text,
    library: &mut L,
    sink: &mut K,
) -> Status
    ensures told { Told (EndsThree (B.kinds rules.now) (L.files library.old) command first.now second.now third.now) NoFront (K.taken sink.old)
        (K.taken sink.new) (Rose (L.faults library.old) (L.faults library.new)) (Rose (K.faults sink.old) (K.faults sink.new)) result }
    ensures kept { L.files library.new ≡ L.files library.old }
    ensures later_library { L.faults library.old ≤ L.faults library.new }
    ensures later_sink { K.faults sink.old ≤ K.faults sink.new }
{
    match command {
        Three::Decide => decide_within(alloc, rules, first, second, third, library, sink),
        Three::Other => unnamed(alloc, sink),
    }
}
