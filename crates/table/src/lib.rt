#![tactic(auto)]

mod cover;
mod fault;
mod laws;
mod reading;
mod shape;
mod truth;
mod writing;

pub use fault::{CoverFault, ReadFault, TableFault};
pub use laws::{examples_hold, fits_by_bits, one_meaning, reads_back};
pub use reading::read;
pub use shape::{Cover, CoverLine, Output, Table};
pub use writing::{character, plane, round_trip};

#[cfg(test)]
mod tests {
    use super::*;
    use std::test::Fail;

    fn line<'a>(plane: &'a [u8], output: &'a [u8]) -> CoverLine<'a> {
        CoverLine { plane, output }
    }

    #[test]
    fn covers_mean_tables(rt: HostRuntime) -> Result<(), Fail> {
        assert_eq!(rt; read(2, &[line(b"-1", b"1")])?.bits(), 12);
        assert_eq!(rt; read(2, &[line(b"11", b"0")])?.bits(), 7);
        assert_eq!(rt; read(2, &[])?.bits(), 0);
        assert_eq!(rt; read(0, &[line(b"", b"1")])?.bits(), 1);
        assert_eq!(rt;
            read(3, &[line(b"1-0", b"1"), line(b"011", b"1")])?.bits(),
            0b0100_1010
        );
        Ok(())
    }

    #[test]
    fn faults_have_numbers(rt: HostRuntime) -> Result<(), Fail> {
        assert_eq!(rt; read(5, &[]).err().ok_or("read")?.number(), 13);
        assert_eq!(rt; Table::new(1, 4).err().ok_or("made")?.number(), 13);
        assert_eq!(rt;
            read(2, &[line(b"1", b"1")]).err().ok_or("read")?.number(),
            35
        );
        assert_eq!(rt;
            read(2, &[line(b"1x", b"0")]).err().ok_or("read")?.number(),
            35
        );
        assert_eq!(rt;
            read(1, &[line(b"1", b"01")]).err().ok_or("read")?.number(),
            35
        );
        assert_eq!(rt;
            read(1, &[line(b"1", b"1"), line(b"0", b"0")])
                .err()
                .ok_or("read")?
                .number(),
            37
        );
        Ok(())
    }

    #[test]
    fn tables_are_read_back(rt: HostRuntime) -> Result<(), Fail> {
        assert_eq!(rt; round_trip(Table::new(4, 0x8001)?)?.bits(), 0x8001);
        assert_eq!(rt; Table::new(3, 0b1001_0000)?.next_one(5), Some(7));
        assert_eq!(rt; plane(6), *b"0110");
        Ok(())
    }
}
