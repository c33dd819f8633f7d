//! Tables of requests to buddy managers, small and large, with the blocks that each is to get.
use buddy_manager::BuddyFlags;
use ttm_base::Span;

pub const PLAIN: BuddyFlags = BuddyFlags {
    topdown: false,
    contig: false,
};

const TOPDOWN: BuddyFlags = BuddyFlags {
    topdown: true,
    contig: false,
};

pub const CONTIG: BuddyFlags = BuddyFlags {
    topdown: false,
    contig: true,
};

const BOTH: BuddyFlags = BuddyFlags {
    topdown: true,
    contig: true,
};

/// How blocks are taken, in which range: from a page up to another; and how many of the table's blocks are wanted.
pub type Row = (BuddyFlags, (u32, u32), usize);

/// The block from a page up to another.
macro_rules! block {
    ($start:expr, $end:expr) => {
        Span {
            start: $start,
            end: $end,
        }
    };
}

/// Requests for numbers of pages, each to a manager of this size of which only these pages are held, and the blocks that are wanted, those of
/// the first row first. (One list of them for all rows: each list in a constant adds to the proof of the function that names it.)
pub struct Table {
    pub size: u32,
    pub held: (Option<u32>, Option<u32>),
    pub pages: u32,
    pub rows: &'static [Row],
    pub blocks: &'static [Span],
}

/// Tables of managers of 12 pages, which are a block of 8 and one of 4, and of large managers.
pub const TABLES: &[Table] = &[
    SPLIT,
    TRIMMED,
    FROM_THE_TOP,
    NOT_SIDE_BY_SIDE,
    RANGE_OF_SEVEN,
    RANGE_FROM_FIVE,
    RANGE_FROM_ONE,
    RANGE_PAST_THE_END,
    TOO_SHORT_A_RANGE,
    SIXTEEN_ROOTS,
    ONE_ROOT,
    HALF_OF_A_ROOT,
    A_ROOT_AND_A_PAGE,
    ONE_PAGE,
    TWO_ROOTS,
    ROOT_WITH_A_HELD_PAGE,
    FREE_ROOT,
    LARGE_ROOT,
];

/// A request for 3 of 12 pages.
const SPLIT: Table = Table {
    size: 12,
    held: (None, None),
    pages: 3,
    rows: &[(PLAIN, (0, 12), 2)],
    blocks: &[block!(8, 10), block!(10, 11)],
};

/// A request for 3 of 12 pages, side by side.
const TRIMMED: Table = Table {
    size: 12,
    held: (None, None),
    pages: 3,
    rows: &[(CONTIG, (0, 12), 1)],
    blocks: &[block!(8, 11)],
};

/// A request for the last of 12 pages.
const FROM_THE_TOP: Table = Table {
    size: 12,
    held: (None, None),
    pages: 1,
    rows: &[(TOPDOWN, (0, 12), 1)],
    blocks: &[block!(11, 12)],
};

/// A request for more of 12 pages than stand in one block, side by side.
const NOT_SIDE_BY_SIDE: Table = Table {
    size: 12,
    held: (None, None),
    pages: 9,
    rows: &[(CONTIG, (0, 12), 0)],
    blocks: &[],
};

/// A request for 2 pages of a range that ends within a block.
const RANGE_OF_SEVEN: Table = Table {
    size: 12,
    held: (None, None),
    pages: 2,
    rows: &[(TOPDOWN, (0, 7), 1)],
    blocks: &[block!(4, 6)],
};

/// A request for a page of a range that begins within a block.
const RANGE_FROM_FIVE: Table = Table {
    size: 12,
    held: (None, None),
    pages: 1,
    rows: &[(PLAIN, (5, 12), 1)],
    blocks: &[block!(8, 9)],
};

/// A request for 8 pages of a range that begins within a block.
const RANGE_FROM_ONE: Table = Table {
    size: 12,
    held: (None, None),
    pages: 8,
    rows: &[(PLAIN, (1, 12), 2)],
    blocks: &[block!(8, 12), block!(4, 8)],
};

/// A request for all 12 pages, of a range that ends past them.
const RANGE_PAST_THE_END: Table = Table {
    size: 12,
    held: (None, None),
    pages: 12,
    rows: &[(PLAIN, (0, 99), 2)],
    blocks: &[block!(0, 8), block!(8, 12)],
};

/// A request for more pages than a range has.
const TOO_SHORT_A_RANGE: Table = Table {
    size: 12,
    held: (None, None),
    pages: 2,
    rows: &[(TOPDOWN, (11, 99), 0)],
    blocks: &[],
};

/// Requests for 24,576 of 65,535 pages, sixteen roots.
const SIXTEEN_ROOTS: Table = Table {
    size: 65_535,
    held: (None, None),
    pages: 24_576,
    rows: &[
        (PLAIN, (0, 65_535), 2),
        (PLAIN, (0, 40_000), 2),
        (TOPDOWN, (0, 65_535), 2),
        (TOPDOWN, (0, 40_000), 2),
        (CONTIG, (0, 65_535), 1),
        (CONTIG, (0, 40_000), 1),
        (BOTH, (0, 65_535), 1),
        (BOTH, (0, 40_000), 1),
    ],
    blocks: &[
        block!(32_768, 49_152),
        block!(49_152, 57_344),
        block!(0, 16_384),
        block!(16_384, 24_576),
        block!(32_768, 49_152),
        block!(49_152, 57_344),
        block!(16_384, 32_768),
        block!(8192, 16_384),
        block!(0, 24_576),
        block!(0, 24_576),
        block!(0, 24_576),
        block!(0, 24_576),
    ],
};

/// Requests for all 65,536 pages; the range of each second row lacks the last.
const ONE_ROOT: Table = Table {
    size: 65_536,
    held: (None, None),
    pages: 65_536,
    rows: &[
        (PLAIN, (0, 65_536), 1),
        (PLAIN, (0, 65_535), 0),
        (TOPDOWN, (0, 65_536), 1),
        (TOPDOWN, (0, 65_535), 0),
        (CONTIG, (0, 65_536), 1),
        (CONTIG, (0, 65_535), 0),
        (BOTH, (0, 65_536), 1),
        (BOTH, (0, 65_535), 0),
    ],
    blocks: &[
        block!(0, 65_536),
        block!(0, 65_536),
        block!(0, 65_536),
        block!(0, 65_536),
    ],
};

/// Requests for half of 65,536 pages, of which one is held.
const HALF_OF_A_ROOT: Table = Table {
    size: 65_536,
    held: (Some(100), None),
    pages: 32_768,
    rows: &[
        (PLAIN, (0, 65_536), 1),
        (PLAIN, (16_384, 65_536), 1),
        (TOPDOWN, (0, 65_536), 1),
        (TOPDOWN, (16_384, 65_536), 1),
        (CONTIG, (0, 65_536), 1),
        (CONTIG, (16_384, 65_536), 1),
        (BOTH, (0, 65_536), 1),
        (BOTH, (16_384, 65_536), 1),
    ],
    blocks: &[
        block!(32_768, 65_536),
        block!(32_768, 65_536),
        block!(32_768, 65_536),
        block!(32_768, 65_536),
        block!(32_768, 65_536),
        block!(32_768, 65_536),
        block!(32_768, 65_536),
        block!(32_768, 65_536),
    ],
};

/// Requests for all 65,537 pages, a root and a page.
const A_ROOT_AND_A_PAGE: Table = Table {
    size: 65_537,
    held: (None, None),
    pages: 65_537,
    rows: &[
        (PLAIN, (0, 65_537), 2),
        (PLAIN, (1, 65_537), 0),
        (TOPDOWN, (0, 65_537), 2),
        (TOPDOWN, (1, 65_537), 0),
        (CONTIG, (0, 65_537), 0),
        (CONTIG, (1, 65_537), 0),
        (BOTH, (0, 65_537), 0),
        (BOTH, (1, 65_537), 0),
    ],
    blocks: &[
        block!(0, 65_536),
        block!(65_536, 65_537),
        block!(0, 65_536),
        block!(65_536, 65_537),
    ],
};

/// Requests for one of 65,537 pages, a root and a page.
const ONE_PAGE: Table = Table {
    size: 65_537,
    held: (None, None),
    pages: 1,
    rows: &[
        (PLAIN, (0, 65_537), 1),
        (PLAIN, (5, 65_536), 1),
        (TOPDOWN, (0, 65_537), 1),
        (TOPDOWN, (5, 65_536), 1),
        (CONTIG, (0, 65_537), 1),
        (CONTIG, (5, 65_536), 1),
        (BOTH, (0, 65_537), 1),
        (BOTH, (5, 65_536), 1),
    ],
    blocks: &[
        block!(65_536, 65_537),
        block!(5, 6),
        block!(65_536, 65_537),
        block!(65_535, 65_536),
        block!(65_536, 65_537),
        block!(5, 6),
        block!(65_536, 65_537),
        block!(65_535, 65_536),
    ],
};

/// Requests for 36,864 of 98,304 pages, two roots.
const TWO_ROOTS: Table = Table {
    size: 98_304,
    held: (None, None),
    pages: 36_864,
    rows: &[
        (PLAIN, (0, 98_304), 2),
        (PLAIN, (16_384, 98_304), 2),
        (TOPDOWN, (0, 98_304), 2),
        (TOPDOWN, (16_384, 98_304), 2),
        (CONTIG, (0, 98_304), 1),
        (CONTIG, (16_384, 98_304), 0),
        (BOTH, (0, 98_304), 1),
        (BOTH, (16_384, 98_304), 0),
    ],
    blocks: &[
        block!(65_536, 98_304),
        block!(0, 4096),
        block!(65_536, 98_304),
        block!(16_384, 20_480),
        block!(65_536, 98_304),
        block!(61_440, 65_536),
        block!(65_536, 98_304),
        block!(61_440, 65_536),
        block!(0, 36_864),
        block!(0, 36_864),
    ],
};

/// Requests for 70,000 of 131,072 pages, of which one in the last part is held.
const ROOT_WITH_A_HELD_PAGE: Table = Table {
    size: 131_072,
    held: (Some(100_000), None),
    pages: 70_000,
    rows: &[
        (PLAIN, (0, 131_072), 6),
        (PLAIN, (1, 131_072), 7),
        (TOPDOWN, (0, 131_072), 6),
        (TOPDOWN, (1, 131_072), 7),
        (CONTIG, (0, 131_072), 0),
        (CONTIG, (1, 131_072), 0),
        (BOTH, (0, 131_072), 0),
        (BOTH, (1, 131_072), 0),
    ],
    blocks: &[
        block!(0, 65_536),
        block!(102_400, 106_496),
        block!(100_096, 100_352),
        block!(100_032, 100_096),
        block!(99_968, 100_000),
        block!(100_016, 100_032),
        block!(65_536, 98_304),
        block!(32_768, 65_536),
        block!(102_400, 106_496),
        block!(100_096, 100_352),
        block!(100_032, 100_096),
        block!(99_968, 100_000),
        block!(100_016, 100_032),
        block!(0, 65_536),
        block!(102_400, 106_496),
        block!(100_096, 100_352),
        block!(100_032, 100_096),
        block!(99_968, 100_000),
        block!(100_016, 100_032),
        block!(65_536, 98_304),
        block!(32_768, 65_536),
        block!(102_400, 106_496),
        block!(100_096, 100_352),
        block!(100_032, 100_096),
        block!(99_968, 100_000),
        block!(100_016, 100_032),
    ],
};

/// Requests for 70,000 of 131,072 pages.
const FREE_ROOT: Table = Table {
    size: 131_072,
    held: (None, None),
    pages: 70_000,
    rows: &[
        (PLAIN, (0, 131_072), 6),
        (PLAIN, (1, 131_072), 6),
        (TOPDOWN, (0, 131_072), 6),
        (TOPDOWN, (1, 131_072), 6),
        (CONTIG, (0, 131_072), 1),
        (CONTIG, (1, 131_072), 0),
        (BOTH, (0, 131_072), 1),
        (BOTH, (1, 131_072), 0),
    ],
    blocks: &[
        block!(0, 65_536),
        block!(65_536, 69_632),
        block!(69_632, 69_888),
        block!(69_888, 69_952),
        block!(69_952, 69_984),
        block!(69_984, 70_000),
        block!(65_536, 131_072),
        block!(4096, 8192),
        block!(256, 512),
        block!(64, 128),
        block!(32, 64),
        block!(16, 32),
        block!(65_536, 131_072),
        block!(61_440, 65_536),
        block!(61_184, 61_440),
        block!(61_120, 61_184),
        block!(61_088, 61_120),
        block!(61_072, 61_088),
        block!(65_536, 131_072),
        block!(61_440, 65_536),
        block!(61_184, 61_440),
        block!(61_120, 61_184),
        block!(61_088, 61_120),
        block!(61_072, 61_088),
        block!(0, 70_000),
        block!(0, 70_000),
    ],
};

/// Requests for 1,500,000 of 8,388,608 pages, of which two are held.
const LARGE_ROOT: Table = Table {
    size: 8_388_608,
    held: (Some(0), Some(6_000_000)),
    pages: 1_500_000,
    rows: &[
        (PLAIN, (0, 8_388_608), 10),
        (PLAIN, (1, 7_000_000), 10),
        (TOPDOWN, (0, 8_388_608), 10),
        (TOPDOWN, (1, 7_000_000), 10),
        (CONTIG, (0, 8_388_608), 1),
        (CONTIG, (1, 7_000_000), 1),
        (BOTH, (0, 8_388_608), 1),
        (BOTH, (1, 7_000_000), 1),
    ],
    blocks: &[
        block!(1_048_576, 2_097_152),
        block!(262_144, 524_288),
        block!(131_072, 262_144),
        block!(32_768, 65_536),
        block!(16_384, 32_768),
        block!(8192, 16_384),
        block!(512, 1024),
        block!(256, 512),
        block!(64, 128),
        block!(32, 64),
        block!(1_048_576, 2_097_152),
        block!(262_144, 524_288),
        block!(131_072, 262_144),
        block!(32_768, 65_536),
        block!(16_384, 32_768),
        block!(8192, 16_384),
        block!(512, 1024),
        block!(256, 512),
        block!(64, 128),
        block!(32, 64),
        block!(4_194_304, 5_242_880),
        block!(6_029_312, 6_291_456),
        block!(5_767_168, 5_898_240),
        block!(5_963_776, 5_996_544),
        block!(6_012_928, 6_029_312),
        block!(6_004_736, 6_012_928),
        block!(6_000_128, 6_000_640),
        block!(5_999_616, 5_999_872),
        block!(6_000_064, 6_000_128),
        block!(6_000_032, 6_000_064),
        block!(4_194_304, 5_242_880),
        block!(6_029_312, 6_291_456),
        block!(5_767_168, 5_898_240),
        block!(5_963_776, 5_996_544),
        block!(6_012_928, 6_029_312),
        block!(6_004_736, 6_012_928),
        block!(6_000_128, 6_000_640),
        block!(5_999_616, 5_999_872),
        block!(6_000_064, 6_000_128),
        block!(6_000_032, 6_000_064),
        block!(2_097_152, 3_597_152),
        block!(2_097_152, 3_597_152),
        block!(6_291_456, 7_791_456),
        block!(2_097_152, 3_597_152),
    ],
};
