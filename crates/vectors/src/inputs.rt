// The inputs that several vectors of RFC 8439 share.

// 2.4.2 and 2.8.2
pub const SUNSCREEN: [u8; 114] =
    *b"Ladies and Gentlemen of the class of '99: If I could offer you only one tip for \
    the future, sunscreen would be it.";

// A.2 #2 and A.3 #2, #3
pub const CONTRIBUTION: [u8; 375] =
    *b"Any submission to the IETF intended by the Contributor for publication as all or part of \
    an IETF Internet-Draft or RFC and any statement made within the context of an IETF \
    activity is considered an \"IETF Contribution\". Such statements include oral statements \
    in IETF sessions, as well as written and electronic communications made at any time or \
    place, which are addressed to";

// A.2 #3 and A.3 #4
pub const JABBERWOCKY: [u8; 127] =
    *b"'Twas brillig, and the slithy toves\nDid gyre and gimble in the wabe:\nAll mimsy were the \
    borogoves,\nAnd the mome raths outgrabe.";

pub const ZEROS: [u8; 32] = [0u8; 32];

// 00, 01, 02, .. 1f
pub const COUNTED: [u8; 32] = *b"\x00\x01\x02\x03\x04\x05\x06\x07\x08\x09\x0a\x0b\x0c\x0d\x0e\x0f\
    \x10\x11\x12\x13\x14\x15\x16\x17\x18\x19\x1a\x1b\x1c\x1d\x1e\x1f";

// 00, 00, .. 00, 01
pub const ENDS_IN_ONE: [u8; 32] =
    *b"\x00\x00\x00\x00\x00\x00\x00\x00\x00\x00\x00\x00\x00\x00\x00\x00\
    \x00\x00\x00\x00\x00\x00\x00\x00\x00\x00\x00\x00\x00\x00\x00\x01";

// A.2 #3, A.3 #4 and A.4 #3
pub const MIXED: [u8; 32] = *b"\x1c\x92\x40\xa5\xeb\x55\xd3\x8a\xf3\x33\x88\x86\x04\xf6\xb5\xf0\
    \x47\x39\x17\xc1\x40\x2b\x80\x09\x9d\xca\x5c\xbc\x20\x70\x75\xc0";

pub const NO_NONCE: [u8; 12] = [0u8; 12];

// 00, 00, .. 00, 02
pub const NONCE_TWO: [u8; 12] = *b"\x00\x00\x00\x00\x00\x00\x00\x00\x00\x00\x00\x02";
