// A file read for a profile.
ghost use Rattle.std.specs.Prelude.{◌≡◌, [], ◌≤◌, length};
ghost use Rattle.output.specs.Store.{farthest};
ghost use Rattle.profile.specs.Refusals.{profile_refusals};
ghost use Rattle.firing.specs.Writing.{Low};
ghost use Rattle.reading.specs.Profiled.{ReadFor};

use super::file::read_file;
use firing::Cursors;
use names::Names;
use profile::texts::Texts;
use text::faults::Refusal;
use text::source::Source;

// A file read for a profile that is not refused, with ten positions of the buffer to write from: all that fires is written, or the file's first refusal.
pub fn read_for(s: &[u8], texts: &Texts, at: [u32; 10], buf: &mut [u8]) -> Result<Cursors, Refusal>
    requires { (profile_refusals texts.now ≡ []) × (length buf.old ≤ farthest) × Low at }
    ensures { ReadFor s.now texts.now buf.old buf.new at result }
{
    let mut names = Names::new();
    names.compile(texts);
    let cursors = Cursors {
        at,
        based: [false; 5],
        total: 0,
    };
    read_file(&Source::new(s), &mut names, buf, cursors)
}
