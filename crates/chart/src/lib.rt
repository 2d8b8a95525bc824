// The chart, its limits, and the answers of the calls.
#![tactic(auto)]

pub mod reply;

// A corner of the chart, or the cell whose lower left corner it is.
#[repr(C)]
#[derive(Clone, Copy, PartialEq, Eq)]
pub struct Point {
    pub col: u16,
    pub row: u16,
}

// The number of columns and of rows of cells.
pub const SIDE: u16 = 255;

// The number of columns and of rows of corners.
pub const CORNERS: usize = SIDE as usize + 1;

// The least and the largest number of letters of an outline.
pub const SHORTEST: usize = 4;

pub const LONGEST: usize = 612;

// Room for the edges of every taken outline: two numbers for each of 100 edges.
pub const MOST_NUMBERS: usize = 200;

// The longest list of edges that a loose query accepts, in numbers.
pub const LONGEST_LIST: usize = 2032;

// A section of a pile lies at a column or at a row.
#[derive(Clone, Copy, PartialEq, Eq)]
pub enum SectionKind {
    Column,
    Row,
}

// Why a call is refused, with the fields that the refusal names (contract 5). The names are those of the C header. There is no 7, and 23
// to 25 are faults of a file.
#[derive(Clone, Copy, PartialEq, Eq)]
pub enum Refusal {
    // 1. Fewer than 4 or more than 612 letters.
    Length,
    // 2. The start corner is off the chart.
    Start,
    // 3. A letter is above 3.
    Letter {
        place: u16,
    },
    // 4. A letter steps off the chart's corners.
    OffChart {
        place: u16,
    },
    // 5. The walk does not end where it started.
    NotClosed,
    // 6. A letter before the last leads to a corner where the walk has been.
    Touches {
        place: u16,
    },
    // 8. A letter is neither of its piece's two.
    BackStep {
        piece: u16,
        place: u16,
    },
    // 9. A factor is not a Christoffel word; the cell is the lowest missing one.
    Dent {
        piece: u16,
        place: u16,
        length: u16,
        cell: Point,
    },
    // 10. Of a test: the buffer has fewer than two numbers for each edge; `edges` is their count. Of a list of edges, whose count of
    // numbers is odd or too large, and of a witness's buffer: 0.
    EdgeList {
        edges: u16,
    },
    // 11. A cell number is above 254.
    Cell,
    // 12. Nothing is at work at the place; a pile is unchecked, or did not pass.
    NothingAtWork,
    // 13. There is no draft to add to, to close or to drop.
    NoDraft,
    // 14. A draft is open already.
    DraftOpen,
    // 15. The draft has 612 letters already.
    DraftFull,
    // 16. An edge is zero, the edges do not sum to zero, or directions do not increase strictly clockwise from up.
    Directions,
    // 17. No outline is taken with this anchor and these edges.
    NoOutline,
    // 18. The buffer for letters, or for an image, a frame or a body, is too short.
    LetterBuffer,
    // 19. The party is above 1.
    Party,
    // 20. The place is above 3.
    Place,
    // 21. The first dented section of a pile: `at` is its column or its row.
    Section {
        kind: SectionKind,
        at: u16,
    },
    // 22. The layer is above 15.
    Layer,
    // 26. The bytes are not an image.
    Image,
    // 27. What is in memory is damaged.
    Damaged,
    // 28. A body is too long for a frame, or the bytes are not a frame.
    Frame,
}

// What a taken outline is told by: the count of its edges, and the anchor. A verdict on an outline is this or a refusal.
#[derive(Clone, Copy, PartialEq, Eq)]
pub struct Taken {
    pub edges: u16,
    pub anchor: Point,
}

// Where a loose query finds a cell.
#[derive(Clone, Copy)]
pub enum Position {
    Inside,
    Outside,
}

// How the cells of two hulls lie (contract 6.4).
#[derive(Clone, Copy, PartialEq, Eq)]
pub enum Nesting {
    Equal,
    FirstWithin,
    SecondWithin,
    Apart,
    Crossing,
}

// The refusal of one of the two lists of a comparison. `list` is 1 or 2.
#[derive(Clone, Copy)]
pub struct RefusedList {
    pub list: u16,
    pub refusal: Refusal,
}

// A reply in seven fields (contract 4.1). Words are those of contract 4.3; 0 is no word.
#[derive(Clone, Copy)]
pub struct Fields {
    pub number: u16,
    pub word: u16,
    pub place: u16,
    pub piece: u16,
    pub length: u16,
    pub col: u16,
    pub row: u16,
}
