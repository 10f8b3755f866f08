// The head of a record (compare/FORMAT.md): numbers, big-endian.
ghost use Rattle.std.specs.Prelude.{◌+◌, ◌≤◌, length};

// How many bytes it has.
pub const BYTES: usize = 38;

// Which entry is asked, and the three numbers of the request, each in the widths of the parameters that it can be.
#[derive(Clone, Copy)]
pub struct Request {
    pub entry: u8,
    pub kind: u8,
    pub half: u16,
    pub word: u32,
    pub size: usize,
    pub second_half: u16,
    pub second_word: u32,
    pub second_size: usize,
    pub third: u8,
}

// A request, how long the slices are, what fills the target, and the answer.
#[derive(Clone, Copy)]
pub struct Head {
    pub request: Request,
    pub source: usize,
    pub target: usize,
    pub seed: u8,
    pub trellis: usize,
    pub answer: u64,
    pub written: usize,
    pub zeroed: usize,
}

// The eight bytes from a place on as one number.
fn number(s: &[u8], at: usize) -> u64
    requires { at + 8 ≤ length s.now }
{
    u64::from_be_bytes([
        s[at],
        s[at + 1],
        s[at + 2],
        s[at + 3],
        s[at + 4],
        s[at + 5],
        s[at + 6],
        s[at + 7],
    ])
}

// The two bytes from a place on as one number.
fn count(s: &[u8], at: usize) -> usize
    requires { at + 2 ≤ length s.now }
    ensures { result ≤ 65535 }
{
    u16::from_be_bytes([s[at], s[at + 1]]) as usize
}

impl Request {
    fn new(entry: u8, first: u64, second: u64, third: u8) -> Request {
        Request {
            entry,
            kind: (first % 256) as u8,
            half: (first % 65536) as u16,
            word: (first % 4294967296) as u32,
            size: first as usize,
            second_half: (second % 65536) as u16,
            second_word: (second % 4294967296) as u32,
            second_size: second as usize,
            third,
        }
    }
}

impl Head {
    pub fn read(s: &[u8]) -> Head
        requires { 38 ≤ length s.now }
        ensures source_bound { result.source ≤ 65535 }
        ensures written_bound { result.written ≤ 65535 }
    {
        Head {
            request: Request::new(s[0], number(s, 1), number(s, 9), s[18]),
            source: count(s, 19),
            target: count(s, 21),
            seed: s[23],
            trellis: count(s, 24),
            answer: number(s, 26),
            written: count(s, 34),
            zeroed: count(s, 36),
        }
    }
}
