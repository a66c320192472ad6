// What is printed of an answer.
ghost use Rattle.std.specs.Prelude.{◌≡◌, ◌++◌, []};
ghost use Rattle.text.specs.Told.{number_of};
ghost use Rattle.xkbresolve.specs.Program.{in_decimal, refusal_line, names, stretch_lines, on_page};

use answers::components::component;
use itoa::Buffer;
use output::store;
use std::marker::Model;
use text::faults::Refusal;

// Room for all that can be printed.
const MOST_PRINTED: usize = 65600;

// The names of the five components.
const NAMES: [&[u8]; 5] = [
    b"keycodes=",
    b"types=",
    b"compat=",
    b"symbols=",
    b"geometry=",
];

// Bytes written one after the other, as far as there is room: in a clause the list of them.
#[derive(Drop)]
pub struct Page {
    bytes: [u8; 65600],
    used: usize,
}

impl Model for Page {
    ghost use Rattle.std.specs.Prelude.{ℕ, List, ◌≤◌, take};

    ghost Value = { List ℕ };

    ghost view = { λ p. take p.used p.bytes };

    ghost invariant = { λ p. p.used ≤ 65600 };
}

impl Page {
    pub fn new() -> Page
        ensures { result ≡ [] }
    {
        Page {
            bytes: [0; 65600],
            used: 0,
        }
    }

    pub fn bytes(&self) -> &[u8]
        ensures { result.now ≡ self.now }
    {
        &self.bytes[..self.used]
    }

    fn put(&mut self, text: &[u8])
        ensures { self.new ≡ on_page (self.old ++ text.now) }
    {
        let room = MOST_PRINTED - self.used;
        let fitting = &text[..text.len().min(room)];
        store(fitting, &mut self.bytes, self.used);
        self.used += fitting.len();
    }

    fn put_number(&mut self, n: usize)
        ensures { self.new ≡ on_page (self.old ++ in_decimal n) }
    {
        self.put(Buffer::new().format(n).as_bytes());
    }

    // The line of a refusal.
    pub fn put_refusal(&mut self, refusal: Refusal)
        ensures { self.new ≡ on_page (self.old ++ refusal_line (number_of refusal.fault) refusal.place) }
    {
        self.put(b"refused ");
        self.put_number(refusal.fault.number());
        self.put(b" at ");
        self.put_number(refusal.place);
        self.put(b"\n");
    }

    // The lines of the five components.
    pub fn put_components(&mut self, texts: &[u8], lengths: [u32; 10])
        ensures { self.new ≡ on_page (self.old ++ stretch_lines names 0 texts.now lengths) }
    {
        for (c, name) in NAMES.iter().enumerate() {
            self.put(name);
            self.put(component(texts, lengths, c));
            self.put(b"\n");
        }
    }
}
