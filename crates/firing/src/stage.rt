// A stage: ten regions of one array, into which ten texts are written before their lengths are known.
ghost use Rattle.std.specs.Prelude.{◌≡◌, true, ◌≤◌, length};
ghost use Rattle.answers.specs.Answer.{sum, accepted, buffer_after};
ghost use Rattle.firing.specs.Stage.{stage_size, in_regions, texts_at, between, Reached};

use output::store;

// Where the regions start, each of 512 bytes.
pub const REGIONS: [u32; 10] = [0, 512, 1024, 1536, 2048, 2560, 3072, 3584, 4096, 4608];

// The lengths of ten texts that go from these starts to these ends.
pub fn lengths_between(starts: [u32; 10], ends: [u32; 10]) -> [u32; 10]
    requires { Reached starts ends }
    ensures { result ≡ between starts ends }
{
    let mut lengths: [u32; 10] = [0; 10];
    for i in 0..10 {
        lengths[i] = ends[i] - starts[i];
    }
    lengths
}

// Whether no text of these lengths is longer than a region.
pub fn in_regions(lengths: [u32; 10]) -> bool
    ensures { result ≡ in_regions lengths }
{
    lengths.iter().all(|n| *n <= 512)
}

// The ten texts of a stage, copied to the start of the buffer one after the other.
pub fn copy_texts(stage: &[u8], lengths: [u32; 10], buf: &mut [u8])
    requires { (length stage.now ≡ stage_size) × (in_regions lengths ≡ true) × (sum lengths ≤ length buf.old) }
    ensures { buf.new ≡ buffer_after buf.old (accepted (texts_at 0 stage.now lengths)) }
{
    let mut at: usize = 0;
    for (i, n) in lengths.iter().enumerate() {
        let n = *n as usize;
        let start = 512 * i;
        store(&stage[start..start + n], buf, at);
        at += n;
    }
}
