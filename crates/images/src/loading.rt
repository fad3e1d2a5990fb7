// Loading the table of an image into lent memory. The image was read before, so that nothing is written of one that is malformed.
ghost use Rattle.std.specs.Prelude.{◌≡◌, ◌≤◌, length};
ghost use Rattle.table.specs.Memory.{table_bytes};
ghost use Rattle.images.specs.Images.{read_image};
ghost use Rattle.images.specs.Steps.{IsRead, loaded_by};

use crate::reading::read_entry;
use crate::{IMAGE_HEAD, ImageRead};
use paths::MAX_PATH;
use table::TABLE_HEAD;
use table::writing::{append_entry, write_head};

// Writes the table of the image that the words are over memory that is large enough. What was read of the image is handed in.
pub fn load_table(words: &[u32], image: ImageRead, mem: &mut [u8])
    requires read { IsRead (read_image words.now) image }
    requires table_bytes_in_bounds { table_bytes ≤ length mem.old }
    ensures { mem.new ≡ loaded_by (read_image words.now) mem.old }
{
    let mut space = [0u8; MAX_PATH];
    let mut from = IMAGE_HEAD;
    let mut at = TABLE_HEAD;
    for _ in 0..image.count {
        let entry = read_entry(words, from, &mut space).unwrap();
        at = append_entry(mem, at, entry.kind, &space[..entry.size]);
        from = entry.end;
    }
    write_head(mem, image.count, image.switches, image.marks);
}
