// Tests of readings: every refusal of reader and writer at its first, a middle and its last place, and every length of the largest reading.
#![tactic(auto)]

#[cfg(test)]
mod tests {
    use fault::{Cause, Fault, Layer};
    use reading::draft::write_reading;
    use reading::part::ReadingDraft;
    use reading::{Reading, read_reading};
    use std::test::Fail;

    // The items 2, 5, .. 47, each of version 258 plus its place among them, under one value.
    fn all_items<'a>(value: &'a [u8]) -> [ReadingDraft<'a>; 16] {
        std::array::from_fn(|i| ReadingDraft {
            item: 3 * i as u8 + 2,
            version: 258 + i as u32,
            value,
        })
    }

    // Writes the largest reading: sixteen items of 32 bytes each.
    fn put_largest(out: &mut [u8]) -> Result<usize, Fault> {
        let value = [9; 32];
        let items = all_items(&value);
        write_reading(&items, out)
    }

    fn largest() -> [u8; 578] {
        let mut out = [0; 578];
        let _ = put_largest(&mut out);
        out
    }

    fn refused(bytes: &[u8], cause: Cause, place: u32) -> bool {
        read_reading(bytes).err() == Some(cause.at(Layer::Frame, place))
    }

    // The largest reading with one byte changed.
    fn refused_with(at: usize, byte: u8, cause: Cause, place: u32) -> bool {
        let mut bytes = largest();
        if at < 578 {
            bytes[at] = byte;
        }
        refused(&bytes, cause, place)
    }

    // Whether item i of a largest reading is the one that was written.
    fn item_is(read: &Reading, i: usize, item: u8, version: u32, place: u32) -> bool {
        read.item(i).is_some_and(|one| {
            one.item == item
                && one.version == version
                && one.place == place
                && one.value.len() == 32
                && one.value[0] == 9
                && one.value[31] == 9
        })
    }

    #[test]
    fn the_largest_reading_is_read_as_written(rt: HostRuntime) -> Result<(), Fail> {
        let bytes = largest();
        let read = read_reading(&bytes)?;
        assert!(rt; read.count() == 16 && read.end() == 578 && read.items.len() == 576);
        assert!(rt; item_is(&read, 0, 2, 258, 2));
        assert!(rt; item_is(&read, 8, 26, 266, 290));
        assert!(rt; item_is(&read, 15, 47, 273, 542));
        assert!(rt; read.item(16).is_none());
        Ok(())
    }

    #[test]
    fn an_item_with_no_value_takes_four_bytes(rt: HostRuntime) -> Result<(), Fail> {
        let items = [ReadingDraft {
            item: 63,
            version: 65535,
            value: &[],
        }];
        let mut out = [1; 8];
        let n = write_reading(&items, &mut out)?;
        assert!(rt; n == 6 && out[0] == 5 && out[1] == 1 && out[2] == 63);
        assert!(rt; out[3] == 255 && out[4] == 255 && out[5] == 0);
        assert!(rt; out[6] == 1 && out[7] == 1);
        let read = read_reading(&out[0..6])?;
        let one = read.item(0).ok_or("no item")?;
        assert!(rt; read.count() == 1 && one.version == 65535 && one.value.is_empty());
        Ok(())
    }

    // Whether every shorter front of the bytes is refused at its length.
    fn no_front_is_a_reading(bytes: &[u8]) -> bool {
        // The range is one of lengths, and a place has 32 bits, so the length is bounded first.
        if bytes.len() > 1000 {
            return false;
        }
        (0..bytes.len()).all(|n| refused(&bytes[..n], Cause::Malformed, n as u32))
    }

    #[test]
    fn a_reading_of_every_other_length_is_refused(rt: HostRuntime) -> Result<(), Fail> {
        let bytes = largest();
        assert!(rt; no_front_is_a_reading(&bytes));
        let mut longer = [0; 579];
        let n = put_largest(&mut longer)?;
        assert!(rt; n == 578);
        assert!(rt; refused(&longer, Cause::Malformed, 578));
        Ok(())
    }

    #[test]
    fn a_reading_with_a_field_out_of_range_is_refused(rt: HostRuntime) {
        assert!(rt; refused_with(0, 4, Cause::Malformed, 0));
        assert!(rt; refused_with(1, 0, Cause::Malformed, 1));
        assert!(rt; refused_with(1, 17, Cause::Malformed, 1));
        assert!(rt; refused_with(1, 15, Cause::Malformed, 542));
        assert!(rt; refused_with(2, 64, Cause::Malformed, 2));
        assert!(rt; refused_with(290, 64, Cause::Malformed, 290));
        assert!(rt; refused_with(542, 64, Cause::Malformed, 542));
        assert!(rt; refused_with(5, 33, Cause::Malformed, 5));
        assert!(rt; refused_with(293, 33, Cause::Malformed, 293));
        assert!(rt; refused_with(545, 33, Cause::Malformed, 545));
        assert!(rt; refused_with(545, 31, Cause::Malformed, 577));
    }

    #[test]
    fn a_reading_that_does_not_rise_is_refused(rt: HostRuntime) {
        assert!(rt; refused_with(38, 2, Cause::NotRising, 38));
        assert!(rt; refused_with(38, 1, Cause::NotRising, 38));
        assert!(rt; refused_with(290, 23, Cause::NotRising, 290));
        assert!(rt; refused_with(542, 44, Cause::NotRising, 542));
        assert!(rt; refused_with(2, 63, Cause::NotRising, 38));
    }

    // The items of the largest reading, of which one is changed.
    fn one_changed<'a>(
        value: &'a [u8],
        i: usize,
        item: u8,
        version: u32,
        other: &'a [u8],
    ) -> [ReadingDraft<'a>; 16] {
        let mut items = all_items(value);
        if i < 16 {
            items[i] = ReadingDraft {
                item,
                version,
                value: other,
            };
        }
        items
    }

    // Whether the largest reading is refused, and the buffer left, where item i has these numbers and n bytes.
    fn not_written(
        i: usize,
        item: u8,
        version: u32,
        n: usize,
        room: usize,
        cause: Cause,
        place: u32,
    ) -> bool {
        let long = [9; 40];
        let mut out = [7; 578];
        if n > 40 || room > 578 {
            return false;
        }
        let items = one_changed(&long[0..32], i, item, version, &long[0..n]);
        let written = write_reading(&items, &mut out[0..room]);
        written == Err(cause.at(Layer::Frame, place)) && out[0] == 7 && out[577] == 7
    }

    #[test]
    fn a_reading_out_of_range_is_not_written(rt: HostRuntime) {
        assert!(rt; not_written(0, 64, 1, 32, 578, Cause::Malformed, 2));
        assert!(rt; not_written(8, 64, 1, 32, 578, Cause::Malformed, 290));
        assert!(rt; not_written(15, 255, 1, 32, 578, Cause::Malformed, 542));
        assert!(rt; not_written(0, 2, 65536, 32, 578, Cause::Malformed, 3));
        assert!(rt; not_written(8, 26, 65536, 32, 578, Cause::Malformed, 291));
        assert!(rt; not_written(15, 47, 65536, 32, 578, Cause::Malformed, 543));
        assert!(rt; not_written(0, 2, 1, 33, 578, Cause::Malformed, 5));
        assert!(rt; not_written(8, 26, 1, 33, 578, Cause::Malformed, 293));
        assert!(rt; not_written(15, 47, 1, 40, 578, Cause::Malformed, 545));
    }

    #[test]
    fn a_reading_that_does_not_rise_is_not_written(rt: HostRuntime) {
        assert!(rt; not_written(1, 2, 1, 32, 578, Cause::NotRising, 38));
        assert!(rt; not_written(8, 23, 1, 32, 578, Cause::NotRising, 290));
        assert!(rt; not_written(15, 44, 1, 32, 578, Cause::NotRising, 542));
        assert!(rt; not_written(0, 63, 1, 0, 578, Cause::NotRising, 6));
    }

    #[test]
    fn a_reading_without_room_is_not_written(rt: HostRuntime) {
        assert!(rt; not_written(0, 2, 1, 32, 577, Cause::NoRoom, 0));
        assert!(rt; not_written(0, 2, 1, 32, 289, Cause::NoRoom, 0));
        assert!(rt; not_written(0, 2, 1, 32, 0, Cause::NoRoom, 0));
        assert!(rt; not_written(0, 64, 1, 32, 0, Cause::Malformed, 2));
        assert!(rt; not_written(1, 2, 1, 32, 0, Cause::NotRising, 38));
    }

    #[test]
    fn no_reading_has_no_items_or_more_than_sixteen(rt: HostRuntime) {
        let many = [ReadingDraft {
            item: 64,
            version: 65536,
            value: &[],
        }; 17];
        let mut out = [7; 4];
        let refused = Err(Cause::Malformed.at(Layer::Frame, 1));
        assert!(rt; write_reading(&many[0..0], &mut out) == refused);
        assert!(rt; write_reading(&many, &mut out) == refused);
        assert!(rt; out == [7; 4]);
    }
}
