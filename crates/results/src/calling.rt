// Check, request, revoke and child, plain and linked, with their answer as one signed number and further ones lent, which are always written.
ghost use Rattle.link.specs.declared.Link.TheVariants.{Plain};
ghost use Rattle.link.specs.Sending.{lent, alone};
ghost use Rattle.items.specs.Items.{items_in};
ghost use Rattle.calls.specs.Calls.{about, Asks, Revokes};
ghost use Rattle.child.specs.Calls.{CreatesChild};
ghost use Rattle.results.specs.Exports.{ExportedAsk, ExportedQuestion, ExportedRevoke, ExportedChild};

use crate::numbers::{outcome_number, question_number, question_size, tell_asked, tell_revoked};
use calls::asking::ask;
use calls::revoking::revoke;
use child::creating::create_child_permissions;
use deciding::Call;
use deciding::questioning::question;
use items::ItemList;
use link::Link;
use paths::Descriptor;

// Checks or requests. Whether the operator was asked goes to `told`, the text's size to `size`, and how many words hold the record to `count`.
pub fn asked(
    mem: &mut [u8],
    link: Link,
    number: &mut u64,
    words: &mut [u32],
    call: Call,
    d: Descriptor,
    path: &[u8],
    cwd: &[u8],
    response: u32,
    space: &mut [u8],
    told: &mut u32,
    size: &mut usize,
    count: &mut usize,
) -> i32
    ensures { ExportedAsk (Asks call link (lent mem.old number.old words.old) space.old (about d «path».now cwd.now) response (lent mem.new number.new words.new) space.new) told.new size.new count.new result }
{
    let answer = ask(
        mem, link, number, words, call, d, path, cwd, response, space,
    );
    tell_asked(answer, told, size, count)
}

// The same plainly: it looks at no number and no words.
pub fn asked_plainly(
    mem: &mut [u8],
    call: Call,
    d: Descriptor,
    path: &[u8],
    cwd: &[u8],
    response: u32,
    space: &mut [u8],
    told: &mut u32,
    size: &mut usize,
) -> i32
    ensures { ExportedAsk (Asks call Plain (alone mem.old) space.old (about d «path».now cwd.now) response (alone mem.new) space.new) told.new size.new 0 result }
{
    asked(
        mem,
        Link::Plain,
        &mut 0,
        &mut [],
        call,
        d,
        path,
        cwd,
        response,
        space,
        told,
        size,
        &mut 0,
    )
}

// Whether a call would ask. The question's size goes to `size`.
pub fn asks(
    mem: &[u8],
    call: Call,
    d: Descriptor,
    path: &[u8],
    cwd: &[u8],
    space: &mut [u8],
    size: &mut usize,
) -> i32
    ensures { ExportedQuestion call mem.now space.old d path.now cwd.now space.new size.new result }
{
    let question = question(mem, call, d, path, cwd, space);
    *size = question_size(question);
    question_number(question)
}

// Revokes, and says what a query in mode partial then answers. How many words hold the record goes to `count`.
pub fn revoked(
    mem: &mut [u8],
    link: Link,
    number: &mut u64,
    words: &mut [u32],
    d: Descriptor,
    path: &[u8],
    cwd: &[u8],
    count: &mut usize,
) -> i32
    ensures { ExportedRevoke (Revokes link (lent mem.old number.old words.old) (about d «path».now cwd.now) (lent mem.new number.new words.new)) count.new result }
{
    let answer = revoke(mem, link, number, words, d, path, cwd);
    tell_revoked(answer, count)
}

// The same plainly.
pub fn revoked_plainly(mem: &mut [u8], d: Descriptor, path: &[u8], cwd: &[u8]) -> i32
    ensures { ExportedRevoke (Revokes Plain (alone mem.old) (about d «path».now cwd.now) (alone mem.new)) 0 result }
{
    revoked(mem, Link::Plain, &mut 0, &mut [], d, path, cwd, &mut 0)
}

// Makes a child's table. How often the operator was asked goes to `told`, and how many words hold records to `count`.
pub fn created(
    parent: &mut [u8],
    link: Link,
    number: &mut u64,
    child: &mut [u8],
    words: &mut [u32],
    code: u32,
    list: ItemList<'_>,
    cwd: &[u8],
    told: &mut u32,
    count: &mut usize,
) -> i32
    ensures { ExportedChild (CreatesChild link (lent parent.old number.old words.old) child.old code (items_in list.entry) cwd.now (lent parent.new number.new words.new) child.new) told.new count.new result }
{
    let sent = create_child_permissions(parent, link, number, child, words, code, list, cwd);
    *told = sent.made.asked as u32;
    *count = sent.words;
    outcome_number(sent.made.outcome)
}
