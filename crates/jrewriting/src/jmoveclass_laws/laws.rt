ghost use Rattle.jrewriting.specs.jmoveclass_laws.MovedFiles.{FileStays, HeadStays, MethodsStay};
ghost use Rattle.jrewriting.specs.jmoveclass_laws.FrameClasses.{FramesFit, FullFrames};

/// The law of pools. What a moved class puts into its pool may stand there: each entry has a spelling, texts are in modified UTF-8, names and
/// descriptors are such, and what entries name is there (JVMS 4.4).
pub fn pool_law()
    ensures { HeadStays }
{}

/// The law of methods. Each method of a moved class meets what is asked of methods: its code has a spelling and names what it must name, its
/// handlers and frames stand at instructions, and what it holds beside them is what a method may hold (JVMS 4.6, 4.7.3, 4.7.4).
pub fn method_law()
    ensures { MethodsStay }
{}

/// The law of files. A moved class is a class file: all that stands in it and behind its pool meets what is asked of class files.
pub fn file_law()
    ensures { FileStays }
{}

/// The laws of frames. Frames in full name classes that stand in a pool, where those do from which they are made; and frames that do, and
/// that can be written, are frames of a class file with this pool (JVMS 4.7.4).
pub fn frame_laws()
    ensures full { FullFrames }
    ensures written { FramesFit }
{}
