// A file resolved for the empty profile, over many files: standard input holds them with a line `====` between two. Then on files of 65,536 and 65,537 blanks.
#![tactic(auto)]

ghost use Rattle.std.specs.Prelude.{◌≡◌, ◌≤◌, length};
ghost use Rattle.file_cases.specs.Cases.{starts, separates, CaseEnd};

use profile::texts::Texts;
use resolver::resolving::measure;
use standard_input::read_full;
use std::io;

// Whether a line starts at a place.
fn starts_line(s: &[u8], at: usize) -> bool
    requires { at ≤ length s.now }
    ensures { result ≡ starts s.now at }
{
    at == 0 || s[at - 1] == b'\n'
}

fn is_separator(s: &[u8], at: usize) -> bool
    requires { at ≤ length s.now }
    ensures { result ≡ separates s.now at }
{
    starts_line(s, at) && s[at..].starts_with(b"====\n")
}

// Where the first file ends: before the first separator, or with the text.
fn case_end(s: &[u8]) -> usize
    ensures { CaseEnd s.now result }
{
    (0..s.len())
        .find(|at| is_separator(s, *at))
        .unwrap_or(s.len())
}

// One file: `refused 6 at 2`, or `accepted`.
fn report(rt: &HostRuntime, file: &[u8]) -> io::Result<()> {
    let empty = Texts {
        model: &[],
        layouts: &[],
        variants: &[],
        options: &[],
    };
    match measure(file, &empty, 1048576) {
        Ok(_) => println!(rt; "accepted"),
        Err(refusal) => println!(rt; "refused {} at {}", refusal.fault.number(), refusal.place),
    }
}

fn report_all(rt: &HostRuntime, files: &[u8]) -> io::Result<()> {
    let mut rest = files;
    loop {
        let (file, more) = rest.split_at(case_end(rest));
        report(rt, file)?;
        let Some(next) = more.strip_prefix(b"====\n") else {
            return Ok(());
        };
        rest = next;
    }
}

fn main(rt: HostRuntime) -> io::Result<()> {
    let mut input: [u8; 65536] = [0; 65536];
    let n = read_full(&mut rt.reader(), &mut input)?;
    report_all(&rt, &input[..n])?;
    let blanks: [u8; 65537] = [32; 65537];
    report(&rt, &blanks[..65536])?;
    report(&rt, &blanks)
}
