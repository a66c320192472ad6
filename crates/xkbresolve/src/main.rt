// Resolves a profile of four lines for the rules that follow them on standard input, and prints the five component strings or the refusal.
#![tactic(auto)]

ghost use Rattle.std.specs.Prelude.{◌≡◌, []};
ghost use Rattle.xkbresolve.specs.Program.{input_answer, printed};

use input::split_line;
use printing::Page;
use profile::texts::Texts;
use resolver::resolving::resolve;
use standard_input::read_full;
use std::io;
use text::faults::{Fault, Refusal};

mod input;
mod printing;

// Puts on an empty page what is printed for an input.
fn run(input: &[u8], page: &mut Page)
    requires { page.old ≡ [] }
    ensures { page.new ≡ printed (input_answer input.now) }
{
    let long = 65536 < input.len();
    if long {
        page.put_refusal(Refusal {
            fault: Fault::LongFile,
            place: 0,
        });
        return;
    }
    let (model, rest) = split_line(input);
    let (layouts, rest) = split_line(rest);
    let (variants, rest) = split_line(rest);
    let (options, rules) = split_line(rest);
    let profile = Texts {
        model,
        layouts,
        variants,
        options,
    };
    let mut texts: [u8; 65536] = [0; 65536];
    match resolve(rules, &profile, &mut texts) {
        Ok(lengths) => page.put_components(&texts, lengths),
        Err(refusal) => page.put_refusal(refusal),
    }
}

// One byte more than is looked at, so that a longer input is known to be too long.
fn main(rt: HostRuntime) -> io::Result<()> {
    let mut input: [u8; 65537] = [0; 65537];
    let n = read_full(&mut rt.reader(), &mut input)?;
    let mut page = Page::new();
    run(&input[..n], &mut page);
    rt.write_all(page.bytes())
}
