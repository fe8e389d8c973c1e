// The sizes of what a book is handed.

// The cells of a side.
pub const CELLS: usize = 128;

// The rows that a report needs: a sweep takes an order or a quotation off with each row but its
// last, and there are 128 orders and 16 quotations.
pub const REPORT_ROWS: usize = 144;

// The rows that a standing list needs: 128 orders on each side.
pub const LIST_ROWS: usize = 256;

// The entries that a book accepts.
pub const MOST_ENTRIES: u32 = 1_000_000;
