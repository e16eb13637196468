// The event words, compared byte for byte with the beginning of a line. The first byte says which few come into question.
ghost use Rattle.std.specs.Prelude.{cond, ◌≡◌, length, None};
ghost use Rattle.script.specs.Bytes.{begun};
ghost use Rattle.script.specs.EventWords.{named, named_among, words, words_with_c};
ghost use Rattle.script.specs.declared.words.Word.TheVariants.{Made};

use ActionWord::*;

// The words of the events that a level makes.
#[derive(Clone, Copy)]
pub enum ActionWord {
    Enpart,
    Envp,
    Call,
    Ret,
    Read,
    Write,
    Fetch,
    Protect,
    Config,
    Secure,
    Flush,
    Rreg,
    Wreg,
    Tpr,
    Ack,
    Pstat,
    Vstat,
    Caps,
    Cri,
    Crm,
}

// The twenty-one event words: `int` comes from outside.
#[derive(Clone, Copy)]
pub enum Word {
    Made(ActionWord),
    Interrupt,
}

// The event word that a line begins with, where it ends, and how many numbers its event takes.
#[derive(Clone, Copy)]
pub struct Named {
    pub word: Word,
    pub end: usize,
    pub takes: usize,
}

// Whether a line's first field is the word with this name.
pub fn begins(line: &[u8], name: &[u8]) -> bool
    ensures { result ≡ begun line.now name.now }
{
    match line.strip_prefix(name) {
        Some([]) => true,
        Some([next, ..]) => *next == b'\t',
        None => false,
    }
}

// This word, where the line begins with its name.
fn pick(line: &[u8], name: &[u8], word: Word, takes: usize) -> Option<Named>
    ensures { result ≡ cond (begun line.now name.now) (named word (length name.now) takes) None }
{
    begins(line, name).then_some(Named {
        word,
        end: name.len(),
        takes,
    })
}

// The same of a word of an event that a level makes.
fn made(line: &[u8], name: &[u8], word: ActionWord, takes: usize) -> Option<Named>
    ensures { result ≡ cond (begun line.now name.now) (named (Made word) (length name.now) takes) None }
{
    pick(line, name, Word::Made(word), takes)
}

// The same among the words that begin with c. The second byte says whether it can be one of request 6.
fn word_with_c(line: &[u8]) -> Option<Named>
    ensures { result ≡ named_among words_with_c line.now }
{
    match *line.get(1)? {
        b'r' => made(line, b"cri", Cri, 3).or_else(|| made(line, b"crm", Crm, 4)),
        _ => made(line, b"call", Call, 3)
            .or_else(|| made(line, b"config", Config, 4))
            .or_else(|| made(line, b"caps", Caps, 2)),
    }
}

// The event word that a line begins with.
pub fn word_of(line: &[u8]) -> Option<Named>
    ensures { result ≡ named_among words line.now }
{
    match *line.first()? {
        b'a' => made(line, b"ack", Ack, 2),
        b'c' => word_with_c(line),
        b'e' => made(line, b"enpart", Enpart, 4).or_else(|| made(line, b"envp", Envp, 7)),
        b'f' => made(line, b"fetch", Fetch, 3).or_else(|| made(line, b"flush", Flush, 2)),
        b'i' => pick(line, b"int", Word::Interrupt, 3),
        b'p' => made(line, b"protect", Protect, 4).or_else(|| made(line, b"pstat", Pstat, 2)),
        b'r' => made(line, b"ret", Ret, 3)
            .or_else(|| made(line, b"read", Read, 3))
            .or_else(|| made(line, b"rreg", Rreg, 4)),
        b's' => made(line, b"secure", Secure, 4),
        b't' => made(line, b"tpr", Tpr, 3),
        b'v' => made(line, b"vstat", Vstat, 2),
        b'w' => made(line, b"write", Write, 4).or_else(|| made(line, b"wreg", Wreg, 5)),
        _ => None,
    }
}
