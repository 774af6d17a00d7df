// What a store means for an item, which a bank answers as a board does.
pub use answer::items::look_up;
