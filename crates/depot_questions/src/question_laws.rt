//! What holds of the texts of questions and of answers.
ghost use Rattle.depot_base.specs.Reading.{IsClosedReadInOneWay};
ghost use Rattle.depot_questions.specs.QuestionAnswers.{answer_text};
ghost use Rattle.depot_questions.specs.QuestionTexts.{BeginsWithKind, question_text};
ghost use Rattle.depot_questions.specs.declared.question.Question.{Question};

/// A text is that of one question, or of none, with its first fault at one offset. Called for its clause alone.
pub fn questions_are_read_in_one_way()
    ensures { IsClosedReadInOneWay question_text }
{}

/// The text of a question begins with its kind, which no request has. Called for its clause alone.
pub fn question_texts_begin_with_their_kind()
    ensures { (q : Question) → BeginsWithKind q }
{}

/// A text is that of one answer, or of none, with its first fault at one offset. Called for its clause alone.
pub fn answers_are_read_in_one_way()
    ensures { IsClosedReadInOneWay answer_text }
{}
