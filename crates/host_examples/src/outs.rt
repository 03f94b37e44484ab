// What no clause says of the outputs below a folder: what is there after a put, and after a refused one.
use crate::test_folder::{joined, new_folder};
use io_edges::{FolderOuts, OutFault, Outs};
use std::fs;
use std::os::unix::fs::symlink;
use std::process::Abort;
use std::test::Fail;

// A folder with the folder `a.i`, and the link `b.i` to the file `old`.
fn used_folder(rt: &HostRuntime) -> Result<String, Fail> {
    let folder = new_folder(rt, "outs")?;
    fs::create_dir_all(rt, &joined(rt.alloc(), &folder, "/a.i")?)?;
    fs::write(rt, &joined(rt.alloc(), &folder, "/old")?, b"old".as_slice())?;
    symlink(rt, "old", &joined(rt.alloc(), &folder, "/b.i")?)?;
    Ok(folder)
}

const PUTS: [(&[u8], Result<(), OutFault>); 5] = [
    (b"b.i", Ok(())),
    (b"a.i", Err(OutFault::Fault)),
    (b"new/", Err(OutFault::Fault)),
    (b"new/.", Err(OutFault::Fault)),
    (b"old/c.i", Err(OutFault::Fault)),
];

fn check_puts<R: Abort, O: Outs>(handle: &R, outs: &mut O) {
    for (name, wanted) in &PUTS {
        let name_shown = name.escape_ascii();
        assert!(handle; outs.put(name, b"text") == *wanted, "{name_shown}");
    }
}

fn check_file<R: Abort>(handle: &R, rt: &HostRuntime, path: &str, text: &str) -> Result<(), Fail> {
    let found = fs::read_to_string(rt, path)?;
    assert_eq!(handle; found.as_str(), text, "{path}");
    Ok(())
}

#[test]
fn a_body_replaces_a_link_and_a_refused_one_leaves_nothing(rt: HostRuntime) -> Result<(), Fail> {
    let folder = used_folder(&rt)?;
    assert!(rt; !folder.is_empty());
    check_puts(&rt, &mut FolderOuts::new(rt.clone()?, rt.alloc(), &folder)?);
    check_file(&rt, &rt, &joined(rt.alloc(), &folder, "/b.i")?, "text")?;
    check_file(&rt, &rt, &joined(rt.alloc(), &folder, "/old")?, "old")?;
    assert_eq!(rt; fs::read_dir(&rt, &folder)?.count(), 3);
    fs::remove_dir_all(&rt, &folder)?;
    Ok(())
}
