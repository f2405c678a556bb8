//! The program `sandpile`. It passes its words, standard input and standard output to `sand_desk`, and reports a fault
//! with a line on standard error and with its exit status. If standard error is a terminal, advice follows the line,
//! and long commands show their progress there.
#![tactic(auto)]

ghost use Rattle.std.specs.Prelude.{◌<◌, length};

use sand_advice::{Cleared, Kept, advice, progress_of, tip};
use sand_cli::{Asked, Misuse, is_nothing, request_of, words_of};
use sand_desk::{DeskFault, answer, report_fault};
use std::alloc::Global;
use std::io;
use std::io::{IsTerminal, Read, Write};
use std::process::ExitCode;
use std::rt::{Clock, Env};
use std::thread::Threads;

fn main(rt: HostRuntime) -> ExitCode {
    let alloc = rt.alloc();
    let words = match words_of(&rt, alloc) {
        Ok(words) => words,
        Err(error) if error.kind() == io::ErrorKind::OutOfMemory => {
            return report_fault(&rt, &mut rt.stderr(), &DeskFault::Memory);
        }
        Err(_) => {
            let _ = rt.eprintln("error: an argument is not valid UTF-8");
            return ExitCode::from(2);
        }
    };
    let words = words.as_slice();
    if is_nothing(words) {
        return ExitCode::from(2);
    }
    match request_of(words) {
        Ok(request) => {
            let asked = Asked { request, words };
            answer_and_advise(&rt, alloc, asked, rt.stdin(), rt.stdout(), rt.stderr())
        }
        Err(misuse) => report_misuse(&rt, misuse),
    }
}

// Answers a request. At a terminal, long commands show their progress, and advice on a fault follows its line.
fn answer_and_advise<
    T: Threads + Sync + Eprint + Clock + Env,
    R: Read + Drop,
    W: Write + IsTerminal + Drop,
    E: Write + IsTerminal + Drop,
>(rt: &T, alloc: Global, asked: Asked<'_>, stdin: R, stdout: W, mut stderr: E) -> ExitCode
    requires { 0 < length asked.words.now }
{
    let speaks = stderr.is_terminal();
    let copy = if speaks { Some(Vec::new(alloc)) } else { None };
    let mut input = Kept::new(stdin, copy);
    let progress = if speaks {
        progress_of(rt, alloc, asked.words)
    } else {
        None
    };
    let is_at_terminal = stdout.is_terminal();
    let mut output = Cleared::new(stdout, progress.as_ref().filter(|_| is_at_terminal));
    let answered = answer(
        rt,
        alloc,
        &progress.as_ref(),
        asked,
        &mut input,
        &mut output,
    );
    if let Some(progress) = &progress {
        progress.end();
    }
    let Err(fault) = answered else {
        return ExitCode::SUCCESS;
    };
    let code = report_fault(rt, &mut stderr, &fault);
    if speaks {
        advise(rt, alloc, asked.words, input.copy(), &fault);
    }
    code
}

// Reports a call of `explain` with anything but one fault.
fn report_misuse<R: Eprint>(rt: &R, misuse: Misuse<'_>) -> ExitCode {
    let _ = match misuse {
        Misuse::NoFault(word) => eprintln!(rt;
            "error: '{word}' is not a fault of a command; 'sandpile explain' lists them all"
        ),
        Misuse::ManyFaults => eprintln!(rt;
            "error: 'explain' takes at most one fault number or name"
        ),
    };
    ExitCode::from(2)
}

// Tells a person what a fault means here, and what to do. If memory runs out for that, nothing is said.
fn advise<R: Eprint>(
    rt: &R,
    alloc: Global,
    words: &[String],
    input: Option<&[u8]>,
    fault: &DeskFault,
) {
    let said = match (fault, words) {
        (DeskFault::Usage(_) | DeskFault::Clash(_), _) => tip(alloc, words),
        (_, [_, command, ..]) => advice(
            alloc,
            command.as_str(),
            input,
            fault.number(),
            fault.place(),
        ),
        _ => return,
    };
    if let Ok(text) = said {
        let _ = eprint!(rt; "{text}");
    }
}
