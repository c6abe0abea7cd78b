use mesh::Node;

/// A flow that the label printer wants.
#[derive(Clone, Copy)]
pub struct Wish {
    pub name: &'static str,
    pub from: Node,
    pub to: Node,
    pub slots: u32,
    pub largest: u32,
}

const MEMORY: Node = Node { x: 0, y: 0 };

const RASTER_A: Node = Node { x: 1, y: 1 };

const RASTER_B: Node = Node { x: 1, y: 6 };

const VISION: Node = Node { x: 5, y: 3 };

/// What crosses the printer's mesh: label data to the raster engines, raster lines
/// to the print heads, camera lanes to the vision engine, and its verdicts.
pub const WISHES: [Wish; 12] = [
    Wish {
        name: "memory to raster A",
        from: MEMORY,
        to: RASTER_A,
        slots: 40,
        largest: 32,
    },
    Wish {
        name: "memory to raster B",
        from: MEMORY,
        to: RASTER_B,
        slots: 24,
        largest: 32,
    },
    Wish {
        name: "raster A to head 0",
        from: RASTER_A,
        to: Node { x: 7, y: 0 },
        slots: 20,
        largest: 16,
    },
    Wish {
        name: "raster A to head 1",
        from: RASTER_A,
        to: Node { x: 7, y: 2 },
        slots: 20,
        largest: 16,
    },
    Wish {
        name: "raster B to head 2",
        from: RASTER_B,
        to: Node { x: 7, y: 5 },
        slots: 20,
        largest: 16,
    },
    Wish {
        name: "raster B to head 3",
        from: RASTER_B,
        to: Node { x: 7, y: 7 },
        slots: 20,
        largest: 16,
    },
    Wish {
        name: "camera 0 to vision",
        from: Node { x: 3, y: 0 },
        to: VISION,
        slots: 24,
        largest: 64,
    },
    Wish {
        name: "camera 1 to vision",
        from: Node { x: 4, y: 7 },
        to: VISION,
        slots: 24,
        largest: 64,
    },
    Wish {
        name: "camera 2 to vision",
        from: Node { x: 2, y: 3 },
        to: VISION,
        slots: 24,
        largest: 64,
    },
    Wish {
        name: "camera 2, slower",
        from: Node { x: 2, y: 3 },
        to: VISION,
        slots: 16,
        largest: 64,
    },
    Wish {
        name: "vision to reject",
        from: VISION,
        to: Node { x: 7, y: 3 },
        slots: 4,
        largest: 2,
    },
    Wish {
        name: "vision to memory",
        from: VISION,
        to: MEMORY,
        slots: 4,
        largest: 2,
    },
];
