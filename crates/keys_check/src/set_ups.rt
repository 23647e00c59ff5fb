// Kind 3, set-ups with a key: side (1; 1 is a server), whether CRC-32C is allowed (1), lowest version (1), whether the
// link is padded (1), the key's length (4) and the key. The line has the four bytes that the link keeps of it.
use check_records::{hexadecimal, refused};
use link_state::{Link, Settings, set_up_with_key};
use std::io;
use wire::u8_at;

fn ready(out: &impl Print, link: Link) -> io::Result<()> {
    print!(out; "link")?;
    hexadecimal(out, &link.keyid.to_le_bytes())
}

pub(crate) fn line(out: &impl Print, head: &[u8], key: &[u8]) -> io::Result<bool> {
    let set = Settings {
        server: u8_at(head, 0) == 1,
        allows: u8_at(head, 1) == 1,
        lowest: u8_at(head, 2),
        padded: u8_at(head, 3) == 1,
        cipher: false,
        only: false,
    };
    match set_up_with_key(set, key) {
        Ok(link) => ready(out, link)?,
        Err(refusal) => refused(out, refusal)?,
    }
    println!(out)?;
    Ok(true)
}
