// The words of the lines that open and close sections.

pub const MESH_FORMAT: &[u8] = b"$MeshFormat";

pub const END_MESH_FORMAT: &[u8] = b"$EndMeshFormat";

pub const NODES: &[u8] = b"$Nodes";

pub const END_NODES: &[u8] = b"$EndNodes";

pub const ELEMENTS: &[u8] = b"$Elements";

pub const END_ELEMENTS: &[u8] = b"$EndElements";

// What stands before a section's name in the line that closes it.
pub const END: &[u8] = b"$End";
