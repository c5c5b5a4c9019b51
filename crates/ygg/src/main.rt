//! The command-line program: real files, standard output and the process's words around the top call.
#![tactic(auto)]

ghost use Rattle.std.specs.Prelude.{◌≡◌, [], ◌∷◌};
ghost use Rattle.ygg_rules.specs.declared.rule.RuleKind.TheVariants as kind;

mod calls;

use crate::calls::tell_calls;
use std::env;
use std::io::ErrorKind;
use std::process::ExitCode;
use ygg_base::{NoMemory, Status, Text, status_number};
use ygg_messages::{Heard, tell};
use ygg_outside::{FileDevice, FileLibrary, OutSink};
use ygg_rules::{
    Book, Rule, RuleBook, RuleKind, add_zero, and_ones, and_zero, eq_self, fold, or_zero, pick_same,
};
use ygg_top::ygg;

/// The words after the program's name. Words that aren't text are as good as none: the command line is then
/// refused as an unknown command.
fn words_of(rt: &HostRuntime) -> Result<Vec<Text>, NoMemory> {
    let mut words = Vec::new(rt.alloc());
    let all = match env::args(rt) {
        Ok(all) => all,
        Err(error) => {
            if error.kind() == ErrorKind::OutOfMemory {
                return Err(NoMemory);
            }
            return Ok(words);
        }
    };
    let mut is_name = true;
    for word in all {
        if !is_name {
            let text = Text::from_slice(rt.alloc(), word.as_bytes())?;
            words.push(text)?;
        }
        is_name = false;
    }
    Ok(words)
}

/// Runs the command that the words name, over the system's files, images in files and standard output, under the book of all seven rules, in the order of
/// their table; and tells on standard error what a person may ask of how it ended.
fn run_under(rt: &HostRuntime, words: &[Text], rules: &RuleBook) -> Status
    requires { ⟦<RuleBook as Book>⟧.kinds rules.now
        ≡ kind.Fold ∷ kind.AndOnes ∷ kind.AndZero ∷ kind.OrZero ∷ kind.AddZero ∷ kind.EqSelf ∷ kind.PickSame ∷ [] }
{
    let mut library = FileLibrary::new(rt);
    let mut device = FileDevice::new(rt);
    let mut sink = Heard::new(rt.alloc(), OutSink::new(rt.stdout()));
    let status = ygg(
        rt.alloc(),
        words,
        rules,
        &mut library,
        &mut device,
        &mut sink,
    );
    tell(rt, words, status, &mut library, &device, &sink);
    tell_calls(rt, words, sink.last(), rules, &mut library);
    status
}

/// The kinds of the seven rules, in the order of their table.
const KINDS: [RuleKind; 7] = [
    RuleKind::Fold,
    RuleKind::AndOnes,
    RuleKind::AndZero,
    RuleKind::OrZero,
    RuleKind::AddZero,
    RuleKind::EqSelf,
    RuleKind::PickSame,
];

/// Runs the command that the words name. Its only error is out of memory for the rules and the words.
fn run(rt: &HostRuntime) -> Result<Status, NoMemory> {
    let alloc = rt.alloc();
    let mut rules = Vec::new(alloc);
    for kind in &KINDS {
        let rule = match kind {
            RuleKind::Fold => Rule::new(RuleKind::Fold, Box::new(alloc, fold)?),
            RuleKind::AndOnes => Rule::new(RuleKind::AndOnes, Box::new(alloc, and_ones)?),
            RuleKind::AndZero => Rule::new(RuleKind::AndZero, Box::new(alloc, and_zero)?),
            RuleKind::OrZero => Rule::new(RuleKind::OrZero, Box::new(alloc, or_zero)?),
            RuleKind::AddZero => Rule::new(RuleKind::AddZero, Box::new(alloc, add_zero)?),
            RuleKind::EqSelf => Rule::new(RuleKind::EqSelf, Box::new(alloc, eq_self)?),
            RuleKind::PickSame => Rule::new(RuleKind::PickSame, Box::new(alloc, pick_same)?),
        };
        rules.push(rule)?;
    }
    let rules = RuleBook::new(rules);
    let words = words_of(rt)?;
    Ok(run_under(rt, words.as_slice(), &rules))
}

fn main(rt: HostRuntime) -> ExitCode {
    let status = match run(&rt) {
        Ok(status) => status,
        Err(NoMemory) => Status::NoMemory,
    };
    ExitCode::from(status_number(status))
}
