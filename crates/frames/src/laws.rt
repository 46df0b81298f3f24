// What holds of every line, frame and answer, as the contracts of functions that do nothing.
ghost use Rattle.frames.specs.Laws.{BytesComeBack, OnlyCapitals, CaseIsFree, FramesComeBack, FramesAlone, FrameLinesComeBack, AnswersComeBack, AnswersAlone};

// Bytes that are written as a line are read back from it.
pub fn bytes_come_back()
    ensures { BytesComeBack }
{}

// Every digit that is written is 0 to 9 or A to F.
pub fn only_capitals()
    ensures { OnlyCapitals }
{}

// The case of letters does not change what a line stands for.
pub fn case_is_free()
    ensures { CaseIsFree }
{}

// The bytes of a frame are sorted as that frame.
pub fn frames_come_back()
    ensures { FramesComeBack }
{}

// Bytes that are sorted as a frame are the bytes of that frame.
pub fn frames_alone()
    ensures { FramesAlone }
{}

// A frame that fits a line is read back from the line that it is written as.
pub fn frame_lines_come_back()
    ensures { FrameLinesComeBack }
{}

// The bytes of an answer are read as that answer; a card needs three bytes for it.
pub fn answers_come_back()
    ensures { AnswersComeBack }
{}

// Bytes that are read as an answer are the bytes of that answer.
pub fn answers_alone()
    ensures { AnswersAlone }
{}
