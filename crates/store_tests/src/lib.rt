// Tests of the two stores: what each keeps, and that they agree after every install.
#![tactic(auto)]

#[cfg(test)]
mod tests {
    use fault::{Cause, Layer};
    use log_store::records::LogRecord;
    use log_store::worked::filled;
    use log_store::{Log, LogMemory};
    use std::process::Abort;
    use std::test::Fail;
    use store::Store;
    use store::item::{Item, NoItem};
    use store::record::Record;
    use store::table::Table;
    use store::value::Value;
    use store::value::bytes::TooLong;

    // A record that another seed makes another one of.
    fn sample(seed: u32) -> Record {
        let byte = (seed % 251) as u8;
        let bytes = [byte; 32];
        let len = (seed % 33) as usize;
        let value = Value::try_from(&bytes[0..len]).unwrap_or(Value::empty());
        Record {
            version: seed,
            value,
            digest: bytes,
        }
    }

    // Whether two stores answer alike for every item.
    fn agree<A: Store, B: Store>(a: &A, b: &B) -> bool {
        (0..64u8)
            .filter_map(Item::new)
            .all(|item| a.look_up(item) == b.look_up(item))
    }

    fn item(number: u8) -> Result<Item, Fail> {
        Item::try_from(number).map_err(|_| Fail::new("no such item"))
    }

    // A record of memory that was used before.
    fn used() -> Result<LogRecord, Fail> {
        let item = item(5)?;
        Ok(LogRecord {
            item,
            row: sample(9),
        })
    }

    // Each loop runs over the numbers that items have, since a number also makes its item's sample.
    fn keeps_every_item<S: Store + Drop>(rt: &impl Abort, memory: S::Memory) -> Result<(), Fail> {
        let mut store = S::new(memory);
        for number in 0..64u8 {
            assert_eq!(rt; store.look_up(item(number)?), Record::blank());
        }
        for number in 0..64u8 {
            store.install(item(number)?, sample(u32::from(number) + 1));
        }
        for number in 0..64u8 {
            assert_eq!(rt; store.look_up(item(number)?), sample(u32::from(number) + 1));
        }
        Ok(())
    }

    // First few items often, then all of them in a mixed order; a turn's number picks the item and makes the sample.
    fn follows_table<S: Store + Drop>(rt: &impl Abort, memory: S::Memory) -> Result<(), Fail> {
        let mut table = Table::new(());
        let mut store = S::new(memory);
        for turn in 0..400u32 {
            let number = if turn < 150 { turn % 3 } else { turn * 37 % 64 };
            let item = item(number as u8)?;
            table.install(item, sample(turn));
            store.install(item, sample(turn));
            assert!(rt; agree(&table, &store));
        }
        Ok(())
    }

    #[test]
    fn items_end_at_63(rt: HostRuntime) -> Result<(), Fail> {
        let last = Item::new(63).ok_or("63 is an item")?;
        assert_eq!(rt; last.number(), 63);
        assert_eq!(rt; item(63)?.number(), 63);
        assert!(rt; Item::new(64).is_none());
        assert_eq!(rt; Item::try_from(64u8), Err(NoItem));
        Ok(())
    }

    #[test]
    fn values_end_at_32_bytes(rt: HostRuntime) -> Result<(), Fail> {
        let bytes = [7; 33];
        let value = Value::new(&bytes[0..32]).ok_or("32 bytes are a value")?;
        assert_eq!(rt; value.len(), 32);
        assert!(rt; value.as_slice() == &bytes[0..32]);
        assert_eq!(rt; Value::empty().len(), 0);
        assert!(rt; Value::new(&bytes[0..33]).is_none());
        assert_eq!(rt; Value::try_from(&bytes[0..33]), Err(TooLong));
        Ok(())
    }

    #[test]
    fn table_keeps_every_item(rt: HostRuntime) -> Result<(), Fail> {
        keeps_every_item::<Table>(&rt, ())
    }

    #[test]
    fn logs_keep_every_item(rt: HostRuntime) -> Result<(), Fail> {
        keeps_every_item::<Log<65>>(&rt, LogMemory::new([used()?; 65])?)?;
        keeps_every_item::<Log<70>>(&rt, LogMemory::new([used()?; 70])?)
    }

    #[test]
    fn logs_follow_the_table(rt: HostRuntime) -> Result<(), Fail> {
        follows_table::<Log<65>>(&rt, LogMemory::new([used()?; 65])?)?;
        follows_table::<Log<70>>(&rt, LogMemory::new([used()?; 70])?)
    }

    #[test]
    fn memory_of_64_is_refused(rt: HostRuntime) -> Result<(), Fail> {
        let refused = LogMemory::new([used()?; 64]).err();
        assert_eq!(rt; refused, Some(Cause::NoRoom.at(Layer::Board, 0)));
        Ok(())
    }

    #[test]
    fn full_log_of_65_stays_full(rt: HostRuntime) -> Result<(), Fail> {
        let mut log = filled(LogMemory::new([used()?; 65])?);
        assert_eq!(rt; log.len(), 65);
        log.install(item(0)?, sample(1));
        assert_eq!(rt; log.len(), 65);
        assert_eq!(rt; log.look_up(item(0)?), sample(1));
        Ok(())
    }

    #[test]
    fn one_item_leaves_one_record(rt: HostRuntime) -> Result<(), Fail> {
        let mut log = Log::<70>::new(LogMemory::new([used()?; 70])?);
        for turn in 0..70u32 {
            log.install(item(3)?, sample(turn));
        }
        assert_eq!(rt; log.len(), 70);
        log.install(item(4)?, sample(99));
        assert_eq!(rt; log.len(), 2);
        assert_eq!(rt; log.look_up(item(3)?), sample(69));
        assert_eq!(rt; log.look_up(item(4)?), sample(99));
        Ok(())
    }
}
