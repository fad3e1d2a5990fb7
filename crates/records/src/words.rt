// Lent words, read one after another. A reader holds the words and the place of the next one.
ghost use Rattle.std.specs.Prelude.{◌≡◌, ◌-◌, length};
ghost use Rattle.records.specs.Words.{read_at, past, front_at};

// The lent words, and the place of the next one.
#[derive(Clone, Copy)]
pub struct Reader<'a> {
    pub words: &'a [u32],
    pub at: usize,
}

// What was read at a place, a word or behind the last one nothing, and the place behind it.
#[derive(Clone, Copy)]
pub struct WordRead {
    pub word: Option<u32>,
    pub at: usize,
}

// What a record or an image begins with: its run word, its head, the word behind that, the place behind all three, and how many words are left there.
#[derive(Clone, Copy)]
pub struct Front {
    pub run: Option<u32>,
    pub head: Option<u32>,
    pub next: Option<u32>,
    pub at: usize,
    pub left: usize,
}

// The word at a place, and the place behind it. At the end the place stays.
pub fn read_at(words: &[u32], at: usize) -> WordRead
    ensures { result ≡ read_at words.now at }
{
    match words.get(at) {
        Some(&word) => WordRead {
            word: Some(word),
            at: at + 1,
        },
        None => WordRead { word: None, at },
    }
}

// How many words stand from a place on.
pub fn left_at(words: &[u32], at: usize) -> usize
    ensures { result ≡ length words.now - at }
{
    words.len().saturating_sub(at)
}

impl<'a> Reader<'a> {
    // A reader of the words from a place on.
    pub fn new(words: &'a [u32], at: usize) -> Reader<'a>
        ensures { (result.words ≡ words.entry) × (result.at ≡ at) }
    {
        Reader { words, at }
    }

    // The next word, if there is one; the reader moves on, and its words stay.
    pub fn next(&mut self) -> Option<u32>
        ensures { (result ≡ (read_at self.old.words.now self.old.at).word) × (self.new ≡ past self.old) }
    {
        let read = read_at(self.words, self.at);
        self.at = read.at;
        read.word
    }

    // Where a reader stands.
    pub fn place(self) -> usize
        ensures { result ≡ self.entry.at }
    {
        self.at
    }

    // How many words a reader has left.
    pub fn left(self) -> usize
        ensures { result ≡ length self.entry.words.now - self.entry.at }
    {
        left_at(self.words, self.at)
    }
}

// Reads what a record or an image begins with. All three words are read whatever they say, for at the end reading gives nothing: which of them it
// has is decided where they are looked at. The promise says nothing of a reader.
pub fn read_front(words: &[u32], from: usize) -> Front
    ensures { result ≡ front_at words.now from }
{
    let mut reader = Reader::new(words, from);
    let run = reader.next();
    let head = reader.next();
    let next = reader.next();
    Front {
        run,
        head,
        next,
        at: reader.place(),
        left: reader.left(),
    }
}
