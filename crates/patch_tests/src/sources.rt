//! Images, objects and patches for the tests.
use elf_write::{Form, write};
use rv_asm::assemble;
use std::alloc::Global;
use std::test::Fail;
use wf_fetch::fetch_image;
use wf_outside::{Delta, MemShelf, Text};
use wf_patches::fetch_patches;
use wf_status::Status;

// An image whose text takes page 10, and whose data page 11: small at 10008 has four bytes, eight at
// 1000C and next at 10014 eight each; here is data.
pub const IMAGE: &[u8] = b"_start: addi x17, x0, 0
ecall
small: addi x10, x0, 1
.size small
eight: addi x10, x0, 2
jalr x0, 0(x1)
.size eight
next: addi x10, x0, 3
jalr x0, 0(x1)
.size next
.data
here: .dword 5
.size here
";

// An object with the functions new and other, of eight bytes each, and data of its own.
pub const OBJECT: &[u8] = b"new: addi x10, x0, 9
jalr x0, 0(x1)
.size new
other: addi x10, x0, 8
jalr x0, 0(x1)
.size other
.rodata
constant: .byte 7
.data
variable: .dword 6
.bss
room: .zero 24
";

// An object whose function calls what no list has.
pub const CALLS: &[u8] = b"new: call nowhere
jalr x0, 0(x1)
.size new
";

// The file that a source means.
fn assembled(alloc: Global, source: &[u8], form: Form) -> Result<Vec<u8>, Fail> {
    let Ok(assembly) = assemble(alloc, source, form) else {
        return Err("not assembled".into());
    };
    match write(alloc, &assembly) {
        Ok(bytes) => Ok(bytes),
        Err(_) => Err("memory".into()),
    }
}

// A file of this name.
fn named(alloc: Global, name: &[u8], bytes: Vec<u8>) -> Result<(Text, Vec<u8>), Fail> {
    let Ok(name) = Text::of(alloc, name) else {
        return Err("memory".into());
    };
    Ok((name, bytes))
}

// What the patches p and q bring to the image, or the answer, where the object o is that of a
// source.
pub fn fetched(
    alloc: Global,
    p: &[u8],
    q: &[u8],
    object: &[u8],
) -> Result<Result<Vec<Delta>, Status>, Fail> {
    let image = assembled(alloc, IMAGE, Form::Exec)?;
    let files = vec![in alloc;
        named(alloc, b"i", image)?,
        named(alloc, b"o", assembled(alloc, object, Form::Object)?)?,
        named(alloc, b"p", p.to_vec(alloc)?)?,
        named(alloc, b"q", q.to_vec(alloc)?)?,
    ]?;
    let mut shelf = MemShelf::new(alloc, files, Vec::new(alloc));
    let Ok(image) = fetch_image(alloc, &mut shelf, b"i") else {
        return Err("no image".into());
    };
    let (Ok(first), Ok(second)) = (Text::of(alloc, b"p"), Text::of(alloc, b"q")) else {
        return Err("memory".into());
    };
    let names = vec![in alloc; first, second]?;
    Ok(fetch_patches(alloc, &mut shelf, &image, &names))
}
