//! The limits of the engine, each with its unit. All are included, but where "one less" is said: a text of `TEXT_CHARACTERS` is not yet
//! too long.

/// Code points of Unicode: they are 0 up to one less, and the code of a raw byte is this number plus the byte.
pub const CODE_POINTS: u32 = 1_114_112;

/// Marks that join one glyph.
pub const GLYPH_MARKS: usize = 6;

/// Characters in the text of a buffer.
pub const TEXT_CHARACTERS: u32 = 4_194_304;

/// The greatest position that there is.
pub const LAST_POSITION: u32 = 4_294_967_295;

/// Buffers made in one run.
pub const BUFFERS: u32 = 64;

/// Characters in the name of a buffer.
pub const NAME_CHARACTERS: u32 = 64;

/// Overlays made in one buffer.
pub const OVERLAYS: u32 = 65_536;

/// Strings made in one run.
pub const STRINGS: u32 = 4_096;

/// Characters in a string.
pub const STRING_CHARACTERS: u32 = 4_096;

/// Display specs made in one run.
pub const SPECS: u32 = 4_096;

/// Columns of a space of a display spec, and the greatest column to which one reaches.
pub const SPACE_COLUMNS: u32 = 400;

/// Faces made in one run.
pub const FACES: u32 = 1_024;

/// Colours of a face: they are 0 up to one less, and this number is none.
pub const COLOURS: u8 = 8;

/// Display tables made in one run.
pub const TABLES: u32 = 64;

/// Runs of faces and display specs that are given with a string.
pub const STRING_RUNS: u32 = 256;

/// Entries of a display table.
pub const TABLE_ENTRIES: u32 = 256;

/// Glyph characters of an entry of a display table, and of an ellipsis.
pub const ENTRY_GLYPHS: u32 = 16;

/// Columns from one stop of a tab to the next.
pub const TAB_COLUMNS: u8 = 32;

/// The greatest atom. An atom is a number that stands for a symbol by which text is invisible.
pub const ATOMS: u32 = 65_535;

/// Atoms in a buffer's list of what is invisible.
pub const INVISIBLE_ATOMS: u32 = 256;

/// The greatest priority of an overlay; the least is as far below 0.
pub const PRIORITY: i32 = 1_000_000;

/// The greatest explicit level of a character: `max_depth` of UAX 9 (BD2).
pub const MAX_DEPTH: u8 = 125;

/// Entries of the stack of the explicit levels: two more than `MAX_DEPTH` (UAX 9, X1).
pub const STACK_ENTRIES: usize = MAX_DEPTH as usize + 2;

/// Brackets that stand open at a time: the entries of the stack of UAX 9 (BD16).
pub const OPEN_BRACKETS: usize = 63;

/// Windows that live at one time.
pub const WINDOWS: u32 = 64;

/// Windows made in one run.
pub const WINDOWS_MADE: u32 = 4_294_967_295;

/// The least columns of a frame.
pub const LEAST_FRAME_COLUMNS: u32 = 12;

/// Columns of the frame, so of a screen, a window and a row.
pub const FRAME_COLUMNS: u32 = 400;

/// The least rows of a frame.
pub const LEAST_FRAME_ROWS: u32 = 2;

/// Rows of the frame, so of a screen and a window.
pub const FRAME_ROWS: u32 = 200;

/// The least columns of a window's text.
pub const LEAST_TEXT_COLUMNS: u32 = 10;

/// The least columns of a window without margins: those of its text and the border on its right.
pub const LEAST_WINDOW_COLUMNS: u32 = LEAST_TEXT_COLUMNS + 1;

/// Columns that a line prefix or wrap prefix takes at the most: half of the widest row.
pub const PREFIX_COLUMNS: u32 = FRAME_COLUMNS / 2;

/// Columns of the line numbers beside a window's text.
pub const NUMBER_COLUMNS: u32 = 10;

/// Columns of the margin strings beside a window's text.
pub const STRING_COLUMNS: u32 = 20;

/// The greatest row of a block at which a window can be made to start.
pub const START_ROW: u32 = 1_000_000;

/// Rows that one op scrolls, up or down.
pub const SCROLL_ROWS: u32 = 1_000_000;

/// Rows that wait to be scrolled, up or down.
pub const PENDING_ROWS: u32 = 1_000_000_000;

/// Columns that a window can be scrolled sideways.
pub const HSCROLL_COLUMNS: u32 = 1_000_000;

/// Rows of the scroll margin.
pub const SCROLL_MARGIN: u32 = 200;

/// Rows up to which a window is scrolled without putting point in its middle.
pub const SCROLL_CONSERVATIVELY: u32 = 100;

/// Characters of a mode line's format, and of the echo area's text.
pub const PLAIN_CHARACTERS: u32 = 4_096;

/// Numbers of a control sequence.
pub const SEQUENCE_NUMBERS: usize = 16;

/// The greatest value of a number of a control sequence; one above it, which no sequence can use, counts as this one.
pub const SEQUENCE_VALUE: u32 = 65_535;

/// Bytes in a line of a script, its newline not counted.
pub const LINE_BYTES: u32 = 1_048_576;

/// Lines in a script.
pub const LINES: u32 = 1_000_000;

/// Bytes in a data file.
pub const FILE_BYTES: u32 = 8_388_608;

/// Bytes in a recorded stream that the auditor judges.
pub const STREAM_BYTES: u32 = 16_777_216;

/// The greatest number of a generated script.
pub const GENERATED_NUMBER: u32 = 2_147_483_647;
