// A window that is filled past its end, and an entry that gets its shares out of order.
#![tactic(auto)]

#[cfg(test)]
mod tests {
    use entry::parts::{Entry, Pair, SealedEntry};
    use window::ring::Window;

    fn filled(last: u32) -> Window {
        let mut window = Window::new();
        for entry in (1..=last).filter_map(Entry::new) {
            window.keep(entry);
        }
        window
    }

    fn signer_at(sealed: &SealedEntry, i: u8) -> Option<u8> {
        sealed.pair(i).map(|pair| pair.signer)
    }

    #[test]
    fn an_entry_takes_the_place_of_that_of_32_versions_before(rt: HostRuntime) {
        let window = filled(33);
        assert!(rt; window.entry(2).version() == 2);
        assert!(rt; window.entry(32).version() == 32);
        assert!(rt; window.entry(1).version() == 33);
    }

    #[test]
    fn shares_come_out_by_signer(rt: HostRuntime) {
        let mut window = filled(3);
        assert!(rt; window.add(2, Pair::new(7, [9; 16])) == 1);
        assert!(rt; window.add(2, Pair::new(0, [4; 16])) == 2);
        assert!(rt; window.add(2, Pair::new(16, [1; 16])) == 2);
        assert!(rt; window.shares(3) == 0);
        assert!(rt; window.has(2, 7));
        assert!(rt; !window.has(2, 1));
        let sealed = window.sealed(2);
        assert!(rt; sealed.len() == 2);
        assert!(rt; signer_at(&sealed, 0) == Some(0));
        assert!(rt; signer_at(&sealed, 1) == Some(7));
        assert!(rt; signer_at(&sealed, 2).is_none());
    }
}
