// Tests of the table file against sizes, offsets and limits that are written down here once more.
#![tactic(auto)]

#[cfg(test)]
mod tests {
    use fault::Layer;
    use file::stored::{MOST_BYTES, NAME, front};
    use file::tables::{Tables, read};
    use std::alloc::{AllocError, Global};
    use std::fs;
    use std::process::Abort;
    use std::test::Fail;

    // How many entries each table has, in the order of the file.
    fn sizes(n: usize) -> [usize; 6] {
        let square = n.saturating_mul(n);
        let side = n.saturating_mul(3);
        [
            1,
            n.saturating_mul(4),
            square.saturating_mul(6),
            square.saturating_mul(9),
            square.saturating_mul(9),
            side.saturating_mul(side.saturating_add(1)) / 2,
        ]
    }

    // The least and the greatest entry of each, in the same order.
    const LIMITS: [(i32, i32); 6] = [
        (0, 65536),
        (-8192, 8192),
        (-4096, 4096),
        (-1048576, 1048576),
        (-65536, 65536),
        (-1048576, 1048576),
    ];

    // A file of zeros but for ones on the diagonal of V.
    fn plain(heap: Global, n: u8) -> Result<Vec<u8>, AllocError> {
        let mut file = vec![in heap; 83, 68, 84, 1, 0, n]?;
        let others = sizes(n as usize)[..5]
            .iter()
            .fold(0usize, |sum, size| sum.saturating_add(*size));
        for _ in 0..others {
            push_word(&mut file, 0)?;
        }
        let side = (n as usize).saturating_mul(3);
        for row in 0..side {
            for _ in 0..row {
                push_word(&mut file, 0)?;
            }
            push_word(&mut file, 1)?;
        }
        Ok(file)
    }

    fn push_word(file: &mut Vec<u8>, value: i32) -> Result<(), AllocError> {
        file.extend_from_slice(&value.to_le_bytes())
    }

    // The file with another number at an offset.
    fn changed(file: &Vec<u8>, at: usize, value: i32) -> Result<Vec<u8>, AllocError> {
        let mut copy = file.clone()?;
        for (byte, new) in copy.iter_mut().skip(at).zip(value.to_le_bytes()) {
            *byte = new;
        }
        Ok(copy)
    }

    // A refusal's layer, number and place: by number, so that the list of rules is no witness of its own.
    type Refusal = (Layer, u8, usize);

    fn refused(bytes: &[u8]) -> Option<Refusal> {
        read(bytes).err().map(|f| (f.layer(), f.number(), f.place))
    }

    fn file_fault(number: u8, place: usize) -> Option<Refusal> {
        Some((Layer::File, number, place))
    }

    #[test]
    fn lengths(rt: HostRuntime) -> Result<(), Fail> {
        let short = plain(rt.alloc(), 1)?;
        assert_eq!(rt; short.len(), 146);
        assert_eq!(rt; refused(&short), None);
        let long = plain(rt.alloc(), 5)?;
        assert_eq!(rt; long.len(), 2970);
        assert_eq!(rt; refused(&long), None);
        Ok(())
    }

    // What every entry's table permits at its first and its last offset, for each horizon.
    #[test]
    fn limits_at_the_edges_of_every_table(rt: HostRuntime) -> Result<(), Fail> {
        for n in 1u8..6 {
            let file = plain(rt.alloc(), n)?;
            let mut first = 6usize;
            let tables = sizes(n as usize).into_iter().zip(LIMITS);
            for (t, (size, (least, greatest))) in tables.enumerate() {
                let last = first
                    .saturating_add(size.saturating_mul(4))
                    .saturating_sub(4);
                for at in [first, last] {
                    edges(&rt, &file, at, least, greatest, t == 5)?;
                }
                first = last.saturating_add(4);
            }
            assert_eq!(rt; first, file.len());
        }
        Ok(())
    }

    fn edges(
        rt: &impl Abort,
        file: &Vec<u8>,
        at: usize,
        least: i32,
        greatest: i32,
        diagonal: bool,
    ) -> Result<(), Fail> {
        assert_eq!(rt; refused(&changed(file, at, greatest)?), None);
        assert_eq!(rt;
            refused(&changed(file, at, greatest.saturating_add(1))?),
            file_fault(6, at)
        );
        assert_eq!(rt;
            refused(&changed(file, at, least.saturating_sub(1))?),
            file_fault(6, at)
        );
        if diagonal {
            assert_eq!(rt; refused(&changed(file, at, 0)?), file_fault(7, at));
            assert_eq!(rt; refused(&changed(file, at, least)?), file_fault(7, at));
            assert_eq!(rt; refused(&changed(file, at, 1)?), None);
            return Ok(());
        }
        assert_eq!(rt; refused(&changed(file, at, least)?), None);
        Ok(())
    }

    #[test]
    fn header_and_length(rt: HostRuntime) -> Result<(), Fail> {
        let file = plain(rt.alloc(), 1)?;
        assert!(rt; file.len() == 146);
        assert_eq!(rt; refused(&[]), file_fault(1, 0));
        assert_eq!(rt; refused(&file[0..5]), file_fault(1, 5));
        assert_eq!(rt; refused(&file[0..6]), file_fault(5, 6));
        assert_eq!(rt; refused(&file[0..145]), file_fault(5, 145));
        assert_eq!(rt; refused(b"SDU\x01\x00\x01"), file_fault(2, 0));
        assert_eq!(rt; refused(b"sDT\x02\x00\x09"), file_fault(2, 0));
        assert_eq!(rt; refused(b"SDT\x02\x00\x09"), file_fault(3, 3));
        assert_eq!(rt; refused(b"SDT\x01\x01\x01"), file_fault(3, 3));
        assert_eq!(rt; refused(b"SDT\x01\x00\x00"), file_fault(4, 5));
        assert_eq!(rt; refused(b"SDT\x01\x00\x06"), file_fault(4, 5));
        let mut long = file;
        long.push(0)?;
        assert_eq!(rt; refused(&long), file_fault(5, 147));
        Ok(())
    }

    // The first of two wrong entries is named, and of two wrongs of one entry its limit.
    #[test]
    fn lowest_offset_first(rt: HostRuntime) -> Result<(), Fail> {
        let file = plain(rt.alloc(), 2)?;
        let late = changed(&file, 10, 9000)?;
        let both = changed(&late, 6, -1)?;
        assert_eq!(rt; refused(&both), file_fault(6, 6));
        assert_eq!(rt; refused(&late), file_fault(6, 10));
        let end = file.len().saturating_sub(4);
        assert_eq!(rt;
            refused(&changed(&file, end, -1048577)?),
            file_fault(6, end)
        );
        Ok(())
    }

    #[test]
    fn writes_back(rt: HostRuntime) -> Result<(), Fail> {
        let plain_file = plain(rt.alloc(), 5)?;
        let file = changed(&plain_file, 1234, -4096)?;
        let tables = read(&file)?;
        let mut short = vec![in rt.alloc(); 7u8; 2969]?;
        assert_eq!(rt; needed(&tables, &mut short), 2970);
        assert!(rt; short.iter().all(|b| *b == 7));
        let mut out = vec![in rt.alloc(); 7u8; 2972]?;
        assert_eq!(rt; needed(&tables, &mut out), 0);
        assert!(rt; out.len() == 2972);
        assert!(rt; out[0..2970] == file[..]);
        assert!(rt; out[2970] == 7 && out[2971] == 7);
        Ok(())
    }

    // What is stored is read back, as far as the buffer goes; no file is no bytes.
    #[test]
    fn stored(rt: HostRuntime) -> Result<(), Fail> {
        let file = plain(rt.alloc(), 5)?;
        assert!(rt; file.len() == 2970);
        fs::write(&rt, NAME, file.as_slice())?;
        let mut buffer = [0u8; MOST_BYTES];
        assert!(rt; front(&rt, &mut buffer)? == file.as_slice());
        let mut short = [0u8; 7];
        assert!(rt; front(&rt, &mut short)? == &file[..7]);
        fs::remove_file(&rt, NAME)?;
        assert!(rt; front(&rt, &mut buffer)?.is_empty());
        Ok(())
    }

    // The length needed where a buffer is too short, else 0.
    fn needed(tables: &Tables, out: &mut Vec<u8>) -> usize {
        tables.write(out).err().map_or(0, |f| f.place)
    }
}
